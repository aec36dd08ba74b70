// A ring of two places on a carrier of 4 PRBs at 30 kHz. The functions here test at run time what the ring's calls require, so that the
// tests need no proof of what was called before.
ghost use Rattle.std.specs.Prelude.{◌≡◌, true};
ghost use Rattle.unit_model.specs.Proper.{IsSlot};
ghost use Rattle.slot_rings.specs.Rings.{has_slot};

use crate::memory_samples::endpoint;
use bfp_codec::{Method, Wide};
use fh_base::{Numerology, Slot, Ticks, shape};
use slot_rings::{SlotRing, Use};
use std::test::Fail;
use unit_model::{Allocation, Block, CommandVerdict};
use window_config::EndpointConfig;

// the slot before frame 0, and the first two of frame 0: the first and the third share a place
const LAST: Slot = Slot {
    frame: -1,
    subframe: 9,
    slot: 1,
};

const FIRST: Slot = Slot {
    frame: 0,
    subframe: 0,
    slot: 0,
};

const SECOND: Slot = Slot {
    frame: 0,
    subframe: 0,
    slot: 1,
};

// the starts of its symbols 2 and 3: it begins half a millisecond before frame 0, and its symbols last 1,096 Ts, the first of them 16 more
const SYMBOL_2: Ticks = Ticks(-657_600_000);

const SYMBOL_3: Ticks = Ticks(-602_800_000);

/// An endpoint of 4 PRBs.
fn narrow(numerology: Numerology) -> EndpointConfig
    ensures { result.prbs ≡ 4 }
{
    EndpointConfig {
        id: 1,
        prbs: 4,
        ..endpoint(numerology, Method::Bfp(9))
    }
}

/// PRBs 1 and 2 in the symbols 2 and 3 of the slot before frame 0, four elements of each.
fn allocation(ring: &SlotRing) -> Allocation {
    Allocation {
        ep: 0,
        endpoint: *ring.endpoint(),
        down: true,
        idle: false,
        slot: LAST,
        symbol: 2,
        num_symbol: 2,
        start_prb: 1,
        num_prb: 2,
        mask: 0xF00,
        section: 7,
        filter: 0,
    }
}

/// Whether the ring's endpoint has such a slot, in a frame near 0.
fn is_slot(ring: &SlotRing, slot: Slot) -> bool
    ensures { result ≡ true → IsSlot ring.now.endpoint.numerology slot }
{
    -9 < slot.frame
        && slot.frame < 9
        && slot.subframe < 10
        && slot.slot < shape(&ring.endpoint().numerology).slots
}

/// Whether a slot has its place.
fn has(ring: &SlotRing, slot: Slot) -> bool
    ensures slot { result ≡ true → IsSlot ring.now.endpoint.numerology slot }
    ensures has { result ≡ true → has_slot ring.now slot ≡ true }
{
    is_slot(ring, slot) && ring.has(slot)
}

/// Lets a slot have its place.
fn open(ring: &mut SlotRing, slot: Slot) {
    if is_slot(ring, slot) {
        ring.open(slot);
    }
}

/// Judges an allocation, and claims it where it is accepted. None where its slot has no place.
fn take(ring: &mut SlotRing, a: Allocation) -> Option<CommandVerdict> {
    let endpoint = *ring.endpoint();
    let a = Allocation { endpoint, ..a };
    let end = usize::from(a.symbol) + usize::from(a.num_symbol);
    if !has(ring, a.slot) || usize::from(shape(&endpoint.numerology).symbols) < end {
        return None;
    }
    let verdict = ring.judge(&a);
    if let CommandVerdict::Accepted = verdict {
        ring.claim(&a);
    }
    Some(verdict)
}

/// Gives a cell of the slot before frame 0 a block of this section.
fn fill(ring: &mut SlotRing, symbol: u8, prb: u16, id: u16) {
    let samples = [Wide { i: 1, q: -1 }; 12];
    let e = *ring.endpoint();
    if has(ring, LAST) && symbol < shape(&e.numerology).symbols && prb < e.prbs {
        ring.fill(LAST, symbol, prb, Block { id, samples });
    }
}

/// Marks the cells in use of a symbol of the slot before frame 0 at the first so many PRBs as reported.
fn report(ring: &mut SlotRing, symbol: u8, count: u16) {
    let e = *ring.endpoint();
    if has(ring, LAST) && symbol < shape(&e.numerology).symbols && count <= e.prbs {
        ring.set_used_reported(LAST, symbol, count);
    }
}

/// The slot that has the place with this index.
fn slot_at(ring: &SlotRing, index: usize) -> Option<Slot> {
    if index < ring.place_count() {
        ring.slot_at(index)
    } else {
        None
    }
}

/// How many uplink sections of a slot were accepted.
fn uplink_count(ring: &SlotRing, slot: Slot) -> Option<usize> {
    if is_slot(ring, slot) {
        Some(ring.uplink(slot).len())
    } else {
        None
    }
}

/// What a report needs of a cell besides its block.
fn cell(ring: &SlotRing, slot: Slot, symbol: u8, prb: u16) -> Option<Use> {
    if is_slot(ring, slot) {
        Some(ring.symbol_cells(slot, symbol).cell(prb))
    } else {
        None
    }
}

/// The section that gave a cell its block.
fn block_id(ring: &SlotRing, slot: Slot, symbol: u8, prb: u16) -> Option<u16> {
    if is_slot(ring, slot) {
        ring.block(slot, symbol, prb).map(|b| b.id)
    } else {
        None
    }
}

/// Whether each of so many cells of symbol 2 from PRB 1 on has a block.
fn has_all(ring: &SlotRing, count: u16) -> Option<bool> {
    if is_slot(ring, LAST) {
        Some(ring.has_all(LAST, 2, 1, count))
    } else {
        None
    }
}

/// Whether a cell of each of the symbols 1 to 3 of a slot is in use and was not reported.
fn used(ring: &SlotRing, slot: Slot) -> Option<[bool; 3]> {
    if is_slot(ring, slot) {
        Some([
            ring.is_used(slot, 1),
            ring.is_used(slot, 2),
            ring.is_used(slot, 3),
        ])
    } else {
        None
    }
}

/// Whether each of the symbols 1 to 4 of a place may have cells to report.
fn pending(ring: &SlotRing, index: usize) -> Option<[bool; 4]> {
    if index < ring.place_count() {
        Some([
            ring.is_pending(index, 1),
            ring.is_pending(index, 2),
            ring.is_pending(index, 3),
            ring.is_pending(index, 4),
        ])
    } else {
        None
    }
}

/// When the first symbol of a place starts that may have cells to report, and whether the place has uplink sections.
fn held(ring: &SlotRing, index: usize) -> Option<(Option<Ticks>, bool)> {
    if index < ring.place_count() {
        Some((ring.earliest_at(index), ring.has_uplink_at(index)))
    } else {
        None
    }
}

#[test]
fn claims_of_a_slot(rt: HostRuntime) -> Result<(), Fail> {
    let n = Numerology::ordinary(1).expect(&rt, "30 kHz");
    let mut ring = SlotRing::make(rt.alloc(), narrow(n), 2)?;
    open(&mut ring, LAST);
    let a = allocation(&ring);
    let other = Allocation {
        section: 8,
        mask: 0x00F,
        ..a
    };
    let idle = Allocation {
        idle: true,
        mask: 0x0F0,
        ..a
    };
    for (a, verdict) in [
        (a, CommandVerdict::Accepted),
        (a, CommandVerdict::Repeat),
        (other, CommandVerdict::Overlap),
        (Allocation { start_prb: 3, ..a }, CommandVerdict::Range),
        (idle, CommandVerdict::Accepted),
        (Allocation { down: false, ..a }, CommandVerdict::Accepted),
    ] {
        assert_eq!(rt; take(&mut ring, a), Some(verdict));
    }
    assert_eq!(rt; uplink_count(&ring, LAST), Some(1));
    for (slot, symbol, prb, mask, section) in [
        (LAST, 2, 1, 0xF00, 7),
        (LAST, 3, 2, 0xF00, 7),
        (LAST, 3, 3, 0, 0),
        (LAST, 4, 1, 0, 0),
        (SECOND, 2, 1, 0, 0),
    ] {
        let wanted = Use {
            mask,
            section,
            reported: false,
        };
        assert_eq!(rt; cell(&ring, slot, symbol, prb), Some(wanted));
    }
    Ok(())
}

#[test]
fn blocks_and_places(rt: HostRuntime) -> Result<(), Fail> {
    let n = Numerology::ordinary(1).expect(&rt, "30 kHz");
    let mut ring = SlotRing::make(rt.alloc(), narrow(n), 2)?;
    assert_eq!(rt; ring.endpoint().prbs, 4);
    assert_eq!(rt; ring.place_count(), 2);
    assert_eq!(rt; slot_at(&ring, 1), None);
    open(&mut ring, LAST);
    assert_eq!(rt; slot_at(&ring, 1), Some(LAST));
    assert_eq!(rt; slot_at(&ring, 0), None);
    let a = allocation(&ring);
    assert_eq!(rt; take(&mut ring, a), Some(CommandVerdict::Accepted));
    assert_eq!(rt; used(&ring, LAST), Some([false, true, true]));
    fill(&mut ring, 2, 1, 7);
    fill(&mut ring, 2, 1, 9);
    assert_eq!(rt; has_all(&ring, 1), Some(true));
    assert_eq!(rt; has_all(&ring, 2), Some(false));
    assert_eq!(rt; block_id(&ring, LAST, 2, 1), Some(7));
    assert_eq!(rt; block_id(&ring, LAST, 2, 0), None);
    report(&mut ring, 2, 2);
    assert_eq!(rt; used(&ring, LAST), Some([false, true, true]));
    report(&mut ring, 2, 3);
    assert_eq!(rt; used(&ring, LAST), Some([false, false, true]));
    open(&mut ring, FIRST);
    assert!(rt; has(&ring, LAST) && has(&ring, FIRST));
    open(&mut ring, SECOND);
    assert!(rt; !has(&ring, LAST) && has(&ring, SECOND));
    assert_eq!(rt; block_id(&ring, SECOND, 2, 1), None);
    assert_eq!(rt; used(&ring, SECOND), Some([false; 3]));
    open(&mut ring, LAST);
    assert_eq!(rt; block_id(&ring, LAST, 2, 1), None);
    assert_eq!(rt; used(&ring, LAST), Some([false; 3]));
    Ok(())
}

#[test]
fn claims_to_report(rt: HostRuntime) -> Result<(), Fail> {
    let n = Numerology::ordinary(1).expect(&rt, "30 kHz");
    let mut ring = SlotRing::make(rt.alloc(), narrow(n), 2)?;
    open(&mut ring, LAST);
    let a = allocation(&ring);
    let idle = Allocation {
        idle: true,
        mask: 0x0F0,
        ..a
    };
    let up = Allocation { down: false, ..a };
    // idle and uplink sections have no downlink cell to report
    for (a, flags, start, uplink) in [
        (idle, [false; 4], None, false),
        (up, [false; 4], None, true),
        (a, [false, true, true, false], Some(SYMBOL_2), true),
    ] {
        assert_eq!(rt; take(&mut ring, a), Some(CommandVerdict::Accepted));
        assert_eq!(rt; pending(&ring, 1), Some(flags));
        assert_eq!(rt; (ring.earliest(), ring.has_uplink()), (start, uplink));
        assert_eq!(rt; held(&ring, 1), Some((start, uplink)));
    }
    assert_eq!(rt; pending(&ring, 0), Some([false; 4]));
    assert_eq!(rt; held(&ring, 0), Some((None, false)));
    // the place of another slot holds no section of this one
    open(&mut ring, SECOND);
    assert!(rt; !ring.has_uplink());
    Ok(())
}

#[test]
fn symbols_are_settled(rt: HostRuntime) -> Result<(), Fail> {
    let n = Numerology::ordinary(1).expect(&rt, "30 kHz");
    let mut ring = SlotRing::make(rt.alloc(), narrow(n), 2)?;
    assert!(rt; ring.earliest().is_none() && !ring.has_uplink());
    open(&mut ring, LAST);
    let a = allocation(&ring);
    assert_eq!(rt; take(&mut ring, a), Some(CommandVerdict::Accepted));
    // only the report of all PRBs says that no cell is left
    for (symbol, count, flags, cells, start) in [
        (
            2,
            2,
            [false, true, true, false],
            [false, true, true],
            Some(SYMBOL_2),
        ),
        (
            2,
            3,
            [false, true, true, false],
            [false, false, true],
            Some(SYMBOL_2),
        ),
        (
            2,
            4,
            [false, false, true, false],
            [false, false, true],
            Some(SYMBOL_3),
        ),
        (3, 4, [false; 4], [false; 3], None),
    ] {
        report(&mut ring, symbol, count);
        assert_eq!(rt; pending(&ring, 1), Some(flags));
        assert_eq!(rt; used(&ring, LAST), Some(cells));
        assert_eq!(rt; ring.earliest(), start);
    }
    let later = Allocation {
        start_prb: 3,
        num_prb: 1,
        ..a
    };
    open(&mut ring, LAST);
    assert_eq!(rt; take(&mut ring, later), Some(CommandVerdict::Accepted));
    assert_eq!(rt; pending(&ring, 1), Some([false, true, true, false]));
    assert_eq!(rt; ring.earliest(), Some(SYMBOL_2));
    Ok(())
}
