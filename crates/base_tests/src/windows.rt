// Edges of windows, relations that just fail, and sizes of rings, all worked out by hand.
ghost use Rattle.std.specs.Prelude.{pos, ◌≤ℤ◌, ◌≡◌};
ghost use Rattle.window_config.specs.Limits.{IsWithinLimits};

use bfp_codec::{Format, Method};
use eaxc_map::Widths;
use fh_base::{Numerology, Slot, Ticks, of_ns};
use std::test::Fail;
use window_config::{
    Class, Config, Delays, EndpointConfig, EndpointList, Failing, ListFull, Range, Reach, Relation,
    check, class, class_up, command_window, cp_dl, data_window, du_reach, is_live, ring_slots,
    ru_reach,
};

// symbol 1 of frame 1 at 30 kHz, at 10,036,197.9 ns
const SYMBOL: Ticks = Ticks(15_415_600_000);

#[test]
fn both_ends_of_a_window_are_inside(rt: HostRuntime) {
    let window = Range {
        min: 100_000,
        max: 400_000,
    };
    let cases = [
        (9_636_197, 9_636_197, Class::Early),
        (9_636_198, 9_636_198, Class::OnTime),
        (9_936_197, 9_936_197, Class::OnTime),
        (9_936_198, 9_936_198, Class::Late),
        (9_636_197, 9_700_000, Class::Early),
        (9_700_000, 9_936_198, Class::Late),
        (9_636_197, 9_936_198, Class::Late),
        (9_636_198, 9_936_197, Class::OnTime),
    ];
    for (first, last, wanted) in cases {
        assert_eq!(rt;
            class(of_ns(first), of_ns(last), SYMBOL, window),
            wanted,
            "{first} to {last}"
        );
    }
    let start = of_ns(1_000_000);
    assert_eq!(rt;
        class(of_ns(600_000), of_ns(900_000), start, window),
        Class::OnTime
    );
}

#[test]
fn both_ends_of_a_window_are_inside_at_the_du(rt: HostRuntime) {
    let window = Range {
        min: 50_000,
        max: 271_000,
    };
    let cases = [
        (10_086_197, 10_086_197, Class::Early),
        (10_086_198, 10_086_198, Class::OnTime),
        (10_307_197, 10_307_197, Class::OnTime),
        (10_307_198, 10_307_198, Class::Late),
        (10_086_197, 10_307_198, Class::Late),
        (10_086_197, 10_100_000, Class::Early),
    ];
    for (first, last, wanted) in cases {
        assert_eq!(rt;
            class_up(of_ns(first), of_ns(last), SYMBOL, window),
            wanted,
            "{first} to {last}"
        );
    }
    let start = of_ns(1_000_000);
    assert_eq!(rt;
        class_up(of_ns(1_050_000), of_ns(1_271_000), start, window),
        Class::OnTime
    );
}

#[test]
fn windows_are_those_of_the_profile(rt: HostRuntime) {
    let d = Delays::usual();
    let early = Range {
        min: 259_000,
        max: 470_000,
    };
    assert_eq!(rt; cp_dl(d.t2a_up, d.advance), early);
    assert_eq!(rt; data_window(&d), d.t2a_up);
    assert_eq!(rt; command_window(&d, true), early);
    assert_eq!(rt; command_window(&d, false), d.t2a_cp_ul);
}

/// What the check says of a profile in which one time is another.
fn told(d: Delays) -> Option<(&'static str, i64, i64)>
    requires { IsWithinLimits d }
{
    match check(&d) {
        Ok(()) => None,
        Err(f) => Some((f.relation.name(), f.left, f.right)),
    }
}

fn range(min: i64, max: i64) -> Range
    ensures min { result.min ≡ min }
    ensures max { result.max ≡ max }
{
    Range { min, max }
}

#[test]
fn the_first_relation_that_fails_is_told(rt: HostRuntime) {
    let d = Delays::usual();
    assert_eq!(rt; check(&d), Ok(()));
    let t1a_up = range(234_000, 345_001);
    assert_eq!(rt;
        check(&Delays { t1a_up, ..d }),
        Err(Failing {
            relation: Relation::UpMax,
            left: 345_001,
            right: 345_000,
        })
    );
    let t1a_up = range(233_999, 345_001);
    assert_eq!(rt;
        told(Delays { t1a_up, ..d }),
        Some(("up-max", 345_001, 345_000))
    );
}

#[test]
fn each_relation_fails_by_one_nanosecond(rt: HostRuntime) {
    let d = Delays::usual();
    let t1a_up = range(233_999, 345_000);
    assert_eq!(rt;
        told(Delays { t1a_up, ..d }),
        Some(("up-min", 233_999, 234_000))
    );
    let t1a_cp_ul = range(224_999, 470_000);
    assert_eq!(rt;
        told(Delays { t1a_cp_ul, ..d }),
        Some(("cp-ul-min", 224_999, 225_000))
    );
    let ta4 = range(50_000, 270_999);
    assert_eq!(rt;
        told(Delays { ta4, ..d }),
        Some(("ta4-max", 270_999, 271_000))
    );
    let t1a_cp_ul = range(225_000, 470_001);
    assert_eq!(rt;
        told(Delays { t1a_cp_ul, ..d }),
        Some(("cp-ul-max", 470_001, 470_000))
    );
    let ta4 = range(50_001, 271_000);
    assert_eq!(rt;
        told(Delays { ta4, ..d }),
        Some(("ta4-min", 50_001, 50_000))
    );
    assert_eq!(rt;
        told(Delays {
            hold_dl: 210_999,
            ..d
        }),
        Some(("hold-dl", 210_999, 211_000))
    );
    assert_eq!(rt;
        told(Delays {
            hold_ul: 220_999,
            ..d
        }),
        Some(("hold-ul", 220_999, 221_000))
    );
}

/// The places that the RU and the DU need.
fn rings(n: &Numerology, d: &Delays) -> (usize, usize)
    requires { IsWithinLimits d.now }
{
    let ru = ru_reach(d);
    let du = du_reach(d);
    (
        ring_slots(n, ru.before, ru.after),
        ring_slots(n, du.before, du.after),
    )
}

#[test]
fn rings_hold_what_is_live(rt: HostRuntime) {
    let d = Delays::usual();
    assert_eq!(rt;
        ru_reach(&d),
        Reach {
            before: 470_000,
            after: 171_000,
        }
    );
    assert_eq!(rt;
        du_reach(&d),
        Reach {
            before: 0,
            after: 271_000,
        }
    );
    let usual_spacing = Numerology::ordinary(1).expect(&rt, "30 kHz");
    assert_eq!(rt; rings(&usual_spacing, &d), (3, 2));
    assert_eq!(rt; rings(&Numerology::extended(), &d), (4, 3));
    let widest = range(1, 2_000_000);
    let d = Delays {
        t1a_up: widest,
        t1a_cp_ul: widest,
        t2a_up: widest,
        t2a_cp_ul: widest,
        ta3: widest,
        ta4: widest,
        advance: 2_000_000,
        ..d
    };
    let short = Numerology::ordinary(4).expect(&rt, "240 kHz");
    assert_eq!(rt; rings(&short, &d).0, 98);
    let offset = Numerology::offset(4, 0, 65_535).expect(&rt, "240 kHz");
    assert_eq!(rt; rings(&offset, &d), (125, 61));
}

#[test]
fn slots_live_from_their_first_word_to_their_last(rt: HostRuntime) {
    let n = Numerology::ordinary(1).expect(&rt, "30 kHz");
    let slot = Slot {
        frame: 1,
        subframe: 0,
        slot: 0,
    };
    let reach = Reach {
        before: 470_000,
        after: 171_000,
    };
    // the slot starts at 15,360,000,000 ticks, and its span has 714,000,000
    let cases = [
        (14_638_079_999, false),
        (14_638_080_000, true),
        (16_336_656_000, true),
        (16_336_656_001, false),
    ];
    for (clock, wanted) in cases {
        assert_eq!(rt; is_live(&n, reach, Ticks(clock), slot), wanted, "{clock}");
    }
}

fn endpoint(id: u16, numerology: Numerology) -> EndpointConfig {
    EndpointConfig {
        id,
        numerology,
        prbs: 273,
        format: Format {
            dynamic: false,
            method: Method::Bfp(9),
        },
    }
}

#[test]
fn sixteen_endpoints_are_listed(rt: HostRuntime) -> Result<(), Fail> {
    let n = Numerology::ordinary(1).expect(&rt, "30 kHz");
    let mut endpoints = EndpointList::new();
    assert_eq!(rt; endpoints.as_slice().len(), 0);
    for id in 0..16u16 {
        assert_eq!(rt; endpoints.push(endpoint(id, n)), Ok(()));
    }
    assert_eq!(rt; endpoints.push(endpoint(16, n)), Err(ListFull));
    let config = Config {
        widths: Widths::new(4, 4, 4, 4)?,
        delays: Delays::usual(),
        gap: 1_000,
        fragment: 1_492,
        pack: 1,
        endpoints,
    };
    let listed = config.endpoints.as_slice();
    assert_eq!(rt; listed.len(), 16);
    for (k, e) in listed.iter().enumerate() {
        assert_eq!(rt; e.id as usize, k);
    }
    Ok(())
}
