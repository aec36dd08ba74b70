// Fitted windows and what shows that a relation fails, worked out by hand.
ghost use Rattle.window_config.specs.Limits.{IsWithinLimits};

use crate::made::range;
use window_config::{Delays, Relation};
use window_plan::{Breach, NoFit, Window, breach, fit};

const RELATIONS: [Relation; 8] = [
    Relation::UpMax,
    Relation::UpMin,
    Relation::CpUlMax,
    Relation::CpUlMin,
    Relation::Ta4Min,
    Relation::Ta4Max,
    Relation::HoldDl,
    Relation::HoldUl,
];

/// What shows that each of the relations fails.
fn breaches(d: &Delays) -> [Option<Breach>; 8]
    requires { IsWithinLimits d.now }
{
    let mut all = [None; 8];
    for k in 0..8 {
        all[k] = breach(d, RELATIONS[k]);
    }
    all
}

fn one(sent: i64, delay: i64) -> Option<Breach> {
    Some(Breach::One { sent, delay })
}

fn two(sent: i64, delay: i64, later: i64, later_delay: i64) -> Option<Breach> {
    Some(Breach::Two {
        sent,
        delay,
        later,
        later_delay,
    })
}

#[test]
fn profiles_that_pass_are_fitted(rt: HostRuntime) {
    let d = Delays::usual();
    assert_eq!(rt; breaches(&d), [None; 8]);
    assert_eq!(rt; fit(&d), Ok(d));
    let narrow = Delays {
        t1a_up: range(240_000, 240_000),
        t1a_cp_ul: range(300_000, 400_000),
        ta4: range(0, 2_000_000),
        hold_dl: 100_000,
        hold_ul: 2_000_000,
        ..d
    };
    assert_eq!(rt; breaches(&narrow), [None; 8]);
    assert_eq!(rt; fit(&narrow), Ok(d));
    // windows that are cut at the limit
    let wide = Delays {
        t2a_up: range(1, 2_000_000),
        t2a_cp_ul: range(1, 2_000_000),
        t12: range(5, 5),
        ..d
    };
    assert_eq!(rt;
        fit(&wide),
        Ok(Delays {
            t1a_up: range(6, 2_000_000),
            t1a_cp_ul: range(6, 2_000_000),
            hold_dl: 1_999_994,
            ..wide
        })
    );
}

#[test]
fn windows_that_nothing_fits_are_refused(rt: HostRuntime) {
    let d = Delays {
        t12: range(0, 300_000),
        ..Delays::usual()
    };
    let up = NoFit {
        window: Window::Up,
        left: 434_000,
        right: 345_000,
    };
    assert_eq!(rt; fit(&d), Err(up));
    let t2a_cp_ul = range(50_000, 149_999);
    assert_eq!(rt;
        fit(&Delays {
            t2a_cp_ul,
            ..Delays::usual()
        }),
        Err(NoFit {
            window: Window::CpUl,
            left: 150_000,
            right: 149_999,
        })
    );
    let ta3 = range(0, 1_900_001);
    assert_eq!(rt;
        fit(&Delays {
            ta3,
            ..Delays::usual()
        }),
        Err(NoFit {
            window: Window::Ta4,
            left: 2_000_001,
            right: 2_000_000,
        })
    );
}

#[test]
fn windows_have_names(rt: HostRuntime) {
    assert_eq!(rt; Window::Up.name(), "up");
    assert_eq!(rt; Window::CpUl.name(), "cp-ul");
    assert_eq!(rt; Window::Ta4.name(), "ta4");
    assert_eq!(rt; Window::HoldDl.name(), "hold-dl");
    assert_eq!(rt; Window::HoldUl.name(), "hold-ul");
}

#[test]
fn relations_that_fail_are_shown(rt: HostRuntime) {
    // downlink data that is sent too early
    let d = Delays {
        t1a_up: range(234_000, 345_001),
        ..Delays::usual()
    };
    let mut wanted = [None; 8];
    wanted[0] = one(-345_001, 0);
    wanted[6] = two(-345_001, 0, -234_000, 100_000);
    assert_eq!(rt; breaches(&d), wanted);
    // a network that is too slow
    let d = Delays {
        t12: range(0, 300_000),
        ..Delays::usual()
    };
    let mut wanted = [None; 8];
    wanted[1] = one(-234_000, 300_000);
    wanted[3] = one(-225_000, 300_000);
    wanted[6] = two(-345_000, 0, -234_000, 300_000);
    assert_eq!(rt; breaches(&d), wanted);
    // uplink frames outside their windows
    let d = Delays {
        t1a_cp_ul: range(225_000, 470_001),
        ta4: range(50_001, 270_999),
        hold_ul: 220_999,
        ..Delays::usual()
    };
    let mut wanted = [None; 8];
    wanted[2] = one(-470_001, 0);
    wanted[4] = one(50_000, 0);
    wanted[5] = one(171_000, 100_000);
    wanted[7] = two(50_000, 0, 171_000, 100_000);
    assert_eq!(rt; breaches(&d), wanted);
}
