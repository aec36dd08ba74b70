// Whole texts: worked by hand, and of documents whose texts another program wrote.
ghost use Rattle.window_config.specs.Configs.{IsConfig};
ghost use Rattle.window_config.specs.Limits.{IsWithinLimits};

use crate::made::{config, range};
use eaxc_map::Widths;
use fh_base::{List, MemorySink, NoMemory, Numerology, PlainSink, SinkFault};
use std::alloc::Global;
use std::process::Abort;
use std::test::Fail;
use window_config::{Config, Delays};
use window_plan::{put_fit, put_windows};

fn assert_windows(rt: &impl Abort, alloc: Global, config: &Config, wanted: &[u8])
    requires { IsConfig config.now }
{
    let mut sink = PlainSink::new(alloc);
    assert_eq!(rt; put_windows(config, &mut sink), Ok(()));
    assert_eq!(rt; sink.bytes(), wanted);
}

fn assert_fit(rt: &impl Abort, alloc: Global, delays: &Delays, wanted: &[u8])
    requires { IsWithinLimits delays.now }
{
    let mut sink = PlainSink::new(alloc);
    assert_eq!(rt; put_fit(delays, &mut sink), Ok(()));
    assert_eq!(rt; sink.bytes(), wanted);
}

const USUAL_WINDOWS: &[u8] = b"t1a_up 234000 345000
t1a_cp_dl 359000 470000
t1a_cp_ul 225000 470000
t2a_up 134000 345000
t2a_cp_dl 259000 470000
t2a_cp_ul 125000 470000
ta3 50000 171000
ta4 50000 271000
ring 0000 3 2
ring 0001 3 2
ring 0002 3 2
ring 0003 3 2
check ok
";

const FAILING_WINDOWS: &[u8] = b"t1a_up 0 2000000
t1a_cp_dl 385832 2385832
t1a_cp_ul 0 921
t2a_up 25286 196391
t2a_cp_dl 411118 582223
t2a_cp_ul 3644 82830
ta3 50000 171000
ta4 1 291
check fails up-max 2000000 196391
";

#[test]
fn windows_that_pass_and_that_fail(rt: HostRuntime) -> Result<(), Fail> {
    let widths = Widths::new(4, 4, 4, 4)?;
    let n = Numerology::ordinary(1).expect(&rt, "30 kHz");
    let usual = config(widths, Delays::usual(), 0, 106, &[n; 4]);
    assert_windows(&rt, rt.alloc(), &usual, USUAL_WINDOWS);
    let delays = Delays {
        t1a_up: range(0, 2_000_000),
        t1a_cp_ul: range(0, 921),
        t2a_up: range(25_286, 196_391),
        t2a_cp_ul: range(3_644, 82_830),
        ta4: range(1, 291),
        advance: 385_832,
        hold_dl: 2_000_000,
        hold_ul: 1,
        ..Delays::usual()
    };
    let failing = config(widths, delays, 0, 106, &[]);
    assert_windows(&rt, rt.alloc(), &failing, FAILING_WINDOWS);
    Ok(())
}

#[test]
fn rings_of_each_kind_of_endpoint(rt: HostRuntime) -> Result<(), Fail> {
    let widths = Widths::new(1, 2, 3, 10)?;
    let delays = Delays {
        t1a_up: range(440, 307_867),
        t1a_cp_ul: range(105_981, 364_528),
        t2a_up: range(92_885, 153_144),
        t2a_cp_ul: range(300_389, 433_680),
        t12: range(0, 2_000_000),
        ..Delays::usual()
    };
    let numerologies = [
        Numerology::offset(1, 65_535, 65_535).expect(&rt, "30 kHz"),
        Numerology::ordinary(2).expect(&rt, "60 kHz"),
        Numerology::ordinary(0).expect(&rt, "15 kHz"),
        Numerology::ordinary(4).expect(&rt, "240 kHz"),
        Numerology::ordinary(3).expect(&rt, "120 kHz"),
    ];
    let config = config(widths, delays, 0x5009, 106, &numerologies);
    let wanted = b"t1a_up 440 307867
t1a_cp_dl 125440 432867
t1a_cp_ul 105981 364528
t2a_up 92885 153144
t2a_cp_dl 217885 278144
t2a_cp_ul 300389 433680
ta3 50000 171000
ta4 50000 271000
ring 5009 30 30
ring 500a 4 3
ring 500b 2 2
ring 500c 11 6
ring 500d 6 4
check fails up-max 307867 153144
";
    assert_windows(&rt, rt.alloc(), &config, wanted);
    Ok(())
}

#[test]
fn rings_of_the_widest_windows(rt: HostRuntime) -> Result<(), Fail> {
    let widths = Widths::new(4, 4, 4, 4)?;
    let widest = range(1, 2_000_000);
    let delays = Delays {
        t1a_up: widest,
        t1a_cp_ul: widest,
        t2a_up: widest,
        t2a_cp_ul: widest,
        ta3: widest,
        ta4: widest,
        t12: range(0, 0),
        t34: range(0, 0),
        advance: 2_000_000,
        hold_dl: 1_999_999,
        hold_ul: 1_999_999,
    };
    let numerologies = [
        Numerology::offset(4, 0, 65_535).expect(&rt, "240 kHz"),
        Numerology::ordinary(4).expect(&rt, "240 kHz"),
    ];
    let config = config(widths, delays, 0xabcd, 106, &numerologies);
    let wanted = b"t1a_up 1 2000000
t1a_cp_dl 2000001 4000000
t1a_cp_ul 1 2000000
t2a_up 1 2000000
t2a_cp_dl 2000001 4000000
t2a_cp_ul 1 2000000
ta3 1 2000000
ta4 1 2000000
ring abcd 125 61
ring abce 98 33
check ok
";
    assert_windows(&rt, rt.alloc(), &config, wanted);
    Ok(())
}

const USUAL_FIT: &[u8] = b"t1a 234000 345000 225000 470000
ta4 50000 271000
hold 211000 221000
";

const NEAR_FIT: &[u8] = b"breach up-max -345001 0
breach hold-dl -345001 0 -234000 100000
t1a 234000 345000 225000 470000
ta4 50000 271000
hold 211000 221000
";

const FIT_BEHIND_FIVE: &[u8] = b"breach up-min -1 100000
breach cp-ul-max -2000000 0
breach cp-ul-min -1 100000
breach ta4-min 1 0
breach hold-dl -234482 0 -1 100000
t1a 234000 345000 225000 470000
ta4 1 183579
hold 211000 183578
";

const FIT_BEHIND_THREE: &[u8] = b"breach up-min 0 1
breach cp-ul-max -2000000 0
breach cp-ul-min -11706 1
t1a 134001 345000 125001 470000
ta4 50000 271000
hold 211000 221000
";

#[test]
fn fits_behind_their_breaches(rt: HostRuntime) {
    let alloc = rt.alloc();
    let usual = Delays::usual();
    assert_fit(&rt, alloc, &usual, USUAL_FIT);
    let t1a_up = range(234_000, 345_001);
    assert_fit(&rt, alloc, &Delays { t1a_up, ..usual }, NEAR_FIT);
    let five = Delays {
        t1a_up: range(1, 234_482),
        t1a_cp_ul: range(1, 2_000_000),
        ta3: range(1, 83_579),
        ta4: range(263, 240_486),
        ..usual
    };
    assert_fit(&rt, alloc, &five, FIT_BEHIND_FIVE);
    let three = Delays {
        t1a_up: range(0, 0),
        t1a_cp_ul: range(11_706, 2_000_000),
        t12: range(0, 1),
        advance: 0,
        ..usual
    };
    assert_fit(&rt, alloc, &three, FIT_BEHIND_THREE);
}

#[test]
fn breaches_alone_where_nothing_fits(rt: HostRuntime) {
    let alloc = rt.alloc();
    let d = Delays::usual();
    let t12 = range(0, 300_000);
    let wanted = b"breach up-min -234000 300000
breach cp-ul-min -225000 300000
breach hold-dl -345000 0 -234000 300000
";
    assert_fit(&rt, alloc, &Delays { t12, ..d }, wanted);
    let d = Delays {
        t1a_up: range(1, 2_000_000),
        t1a_cp_ul: range(0, 2_000_000),
        t2a_up: range(59_536, 421_501),
        t2a_cp_ul: range(252_316, 422_904),
        ta3: range(240_821, 2_000_000),
        hold_dl: 74_102,
        hold_ul: 407,
        ..d
    };
    let wanted = b"breach up-max -2000000 0
breach up-min -1 100000
breach cp-ul-max -2000000 0
breach cp-ul-min 0 100000
breach ta4-max 2000000 100000
breach hold-dl -2000000 0 -1 100000
breach hold-ul 240821 0 2000000 100000
";
    assert_fit(&rt, alloc, &d, wanted);
}

fn calls(alloc: Global, number: u64) -> Result<List<u64>, NoMemory> {
    let mut list = List::new(alloc);
    list.push(number)?;
    Ok(list)
}

#[test]
fn a_sink_that_fails_holds_a_front(rt: HostRuntime) -> Result<(), Fail> {
    let alloc = rt.alloc();
    let mut sink = MemorySink::new(alloc, 1, calls(alloc, 9)?);
    assert_eq!(rt;
        put_fit(&Delays::usual(), &mut sink),
        Err(SinkFault::Failed)
    );
    assert_eq!(rt; sink.bytes(), b"t1a 2340".as_slice());
    let mut sink = MemorySink::new(alloc, 1, calls(alloc, 13)?);
    let widths = Widths::new(4, 4, 4, 4)?;
    let config = config(widths, Delays::usual(), 0, 106, &[]);
    assert_eq!(rt; put_windows(&config, &mut sink), Err(SinkFault::Failed));
    assert_eq!(rt; sink.bytes(), b"t1a_up 23400".as_slice());
    Ok(())
}
