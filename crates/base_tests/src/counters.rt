// The printed names in their order, and what additions change.
use fault_counters::{Counter, Counters};

#[test]
fn names_stand_in_their_order(rt: HostRuntime) {
    let wanted = [
        "frames",
        "frames_refused",
        "messages",
        "other_type",
        "delay",
        "short",
        "unknown_endpoint",
        "wrong_way",
        "c_refused",
        "c_mismatch",
        "c_late",
        "c_early",
        "c_range",
        "c_repeat",
        "c_overlap",
        "c_full",
        "c_accepted",
        "f_stored",
        "f_whole",
        "f_repeat",
        "f_stray",
        "f_long",
        "u_refused",
        "u_late",
        "u_early",
        "u_repeat",
        "u_taken",
        "cells",
        "missing",
        "delay_short",
        "delay_unknown",
        "delay_repeat",
        "delay_result",
    ];
    let all = Counter::all();
    for k in 0..33 {
        assert_eq!(rt; all[k].name(), wanted[k], "{k}");
    }
}

#[test]
fn an_addition_changes_one_counter(rt: HostRuntime) {
    let mut counters = Counters::new();
    counters.add(Counter::CAccepted);
    counters.add(Counter::UTaken);
    counters.add(Counter::CAccepted);
    for counter in Counter::all() {
        let wanted = match counter {
            Counter::CAccepted => 2,
            Counter::UTaken => 1,
            _ => 0,
        };
        assert_eq!(rt; counters.get(counter), wanted, "{counter:?}");
    }
}
