// One endpoint of 4 PRBs at 30 kHz, whose frame 1 begins at 10 ms, which is tick 15360000000. Its symbol 0 is 71168 Tc long, of
// 781.25 ticks each, so symbol 1 begins 55600000 ticks later. An uplink command is on time from 470 to 125 us before its symbol.
use crate::memory_samples::{SLOT, accept, config, endpoint, section};
use air_source::Side;
use bfp_codec::Method;
use eaxc_map::Widths;
use fh_base::{Numerology, Ticks, shape};
use std::test::Fail;
use unit_cells::UnitCells;
use unit_model::UplinkJob;
use unit_symbols::{JobCursor, next_job};

fn job(symbol: u8, section: u16, start_prb: u16) -> UplinkJob {
    UplinkJob {
        ep: 0,
        s: if symbol == 0 {
            Ticks(15_360_000_000)
        } else {
            Ticks(15_415_600_000)
        },
        slot: SLOT,
        symbol,
        filter: 0,
        section,
        start_prb,
        num_prb: 1,
    }
}

/// By startPrbc, and those that tie each once, though the later PRB was accepted first.
#[test]
fn messages_of_a_symbol(rt: HostRuntime) -> Result<(), Fail> {
    let n = Numerology::ordinary(1).expect(&rt, "30 kHz");
    assert!(rt; shape(&n).slots == 2);
    assert!(rt; shape(&n).symbols == 14);
    let e = endpoint(n, Method::Plain);
    let config = config(e, Widths::new(4, 4, 4, 4)?);
    let mut cells = UnitCells::make(rt.alloc(), Side::Ru, &config)?;
    let start = JobCursor::start(Ticks(0));
    assert!(rt; next_job(&cells, &start).is_none());
    assert!(rt; accept(&mut cells, e, false, section(7, 2, 0xfff, 1)));
    assert!(rt; accept(&mut cells, e, false, section(9, 0, 0xf00, 1)));
    assert!(rt; accept(&mut cells, e, false, section(9, 0, 0x0ff, 1)));
    let a = next_job(&cells, &start).expect(&rt, "the first");
    assert_eq!(rt; a.job, job(0, 9, 0));
    let after_a = start.after(&a);
    let b = next_job(&cells, &after_a).expect(&rt, "the second");
    assert_eq!(rt; b.job, job(0, 9, 0));
    let after_b = after_a.after(&b);
    let c = next_job(&cells, &after_b).expect(&rt, "the third");
    assert_eq!(rt; c.job, job(0, 7, 2));
    let after_c = after_b.after(&c);
    assert_eq!(rt; after_c.given, 3);
    assert!(rt; next_job(&cells, &after_c).is_none());
    Ok(())
}

/// Symbol by symbol; a symbol that began before the clock is passed over.
#[test]
fn messages_of_two_symbols(rt: HostRuntime) -> Result<(), Fail> {
    let n = Numerology::ordinary(1).expect(&rt, "30 kHz");
    assert!(rt; shape(&n).slots == 2);
    assert!(rt; shape(&n).symbols == 14);
    let e = endpoint(n, Method::Plain);
    let config = config(e, Widths::new(4, 4, 4, 4)?);
    let mut cells = UnitCells::make(rt.alloc(), Side::Ru, &config)?;
    assert!(rt; accept(&mut cells, e, false, section(7, 2, 0xfff, 2)));
    let start = JobCursor::start(Ticks(0));
    let a = next_job(&cells, &start).expect(&rt, "symbol 0");
    assert_eq!(rt; a.job, job(0, 7, 2));
    let after_a = start.after(&a);
    let b = next_job(&cells, &after_a).expect(&rt, "symbol 1");
    assert_eq!(rt; b.job, job(1, 7, 2));
    assert!(rt; next_job(&cells, &after_a.after(&b)).is_none());
    let at_0 = start.settled(Ticks(15_360_000_000));
    assert_eq!(rt;
        next_job(&cells, &at_0).map(|next| next.job),
        Some(job(0, 7, 2))
    );
    let past_0 = after_a.settled(Ticks(15_360_000_001));
    assert!(rt; past_0.last.is_none());
    assert_eq!(rt;
        next_job(&cells, &past_0).map(|next| next.job),
        Some(job(1, 7, 2))
    );
    Ok(())
}
