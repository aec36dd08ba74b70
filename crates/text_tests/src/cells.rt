// Combined cells, with sums worked out by hand.
use crate::following::mix;
use air_source::{AirCell, Side};
use bfp_codec::Wide;
use fh_base::{Slot, Ticks};
use shared_cell::{Mixed, Sum};
use std::alloc::Global;
use std::process::Abort;

const SLOT: Slot = Slot {
    frame: -1,
    subframe: 9,
    slot: 1,
};

// A cell of elements 0, 1 and 11.
fn cell(prb: u16, block: Option<[Wide; 12]>) -> AirCell {
    AirCell {
        side: Side::Du,
        at: Ticks(-5),
        id: 3,
        slot: SLOT,
        symbol: 13,
        prb,
        section: 7,
        mask: 0xc01,
        block,
    }
}

fn mixed(prb: u16, units: u8, sums: [Sum; 12]) -> Mixed {
    Mixed {
        at: Ticks(-5),
        id: 3,
        slot: SLOT,
        symbol: 13,
        prb,
        section: 7,
        mask: 0xc01,
        units,
        sums,
    }
}

// Samples at elements 0, 1 and 11, and others at 2 and 10.
fn samples(first: Wide, second: Wide, last: Wide) -> [Wide; 12] {
    let mut block = [Wide { i: 0, q: 0 }; 12];
    block[0] = first;
    block[1] = second;
    block[2] = Wide { i: 500, q: 600 };
    block[10] = Wide { i: -1, q: 1 };
    block[11] = last;
    block
}

fn sums(first: Sum, second: Sum, last: Sum) -> [Sum; 12] {
    let mut sums = [Sum { i: 0, q: 0 }; 12];
    sums[0] = first;
    sums[1] = second;
    sums[11] = last;
    sums
}

fn near() -> [Wide; 12] {
    samples(
        Wide { i: 1, q: -10 },
        Wide { i: 2, q: 20 },
        Wide { i: 3, q: 30 },
    )
}

fn far() -> [Wide; 12] {
    samples(
        Wide { i: 100, q: 7 },
        Wide { i: -50, q: 8 },
        Wide { i: 0, q: -31 },
    )
}

fn near_alone() -> [Sum; 12] {
    sums(
        Sum { i: 1, q: -10 },
        Sum { i: 2, q: 20 },
        Sum { i: 3, q: 30 },
    )
}

// The combined cells of these cells are these, and no more.
fn assert_mixed(rt: &impl Abort, alloc: Global, cells: &[AirCell], wanted: &[Mixed]) {
    match mix(alloc, cells) {
        None => assert!(rt; false),
        Some(mixer) => {
            for k in 0..wanted.len() {
                assert_eq!(rt; mixer.mixed(k), Some(wanted[k]), "at {k}");
            }
            assert_eq!(rt; mixer.mixed(wanted.len()), None);
        }
    }
}

#[test]
fn units_are_added_up_and_a_missing_cell_is_none(rt: HostRuntime) {
    let alloc = rt.alloc();
    let both = sums(
        Sum { i: 101, q: -3 },
        Sum { i: -48, q: 28 },
        Sum { i: 3, q: -1 },
    );
    let cells = [cell(5, Some(near())), cell(5, Some(far()))];
    assert_mixed(&rt, alloc, &cells, &[mixed(5, 2, both)]);
    let cells = [cell(5, None), cell(5, Some(near()))];
    assert_mixed(&rt, alloc, &cells, &[mixed(5, 1, near_alone())]);
    let none = [Sum { i: 0, q: 0 }; 12];
    assert_mixed(&rt, alloc, &[cell(5, None); 2], &[mixed(5, 0, none)]);
}

#[test]
fn places_stand_in_the_order_of_their_first_cells(rt: HostRuntime) {
    let cells = [cell(5, None), cell(3, Some(near())), cell(5, Some(near()))];
    let wanted = [mixed(5, 1, near_alone()), mixed(3, 1, near_alone())];
    assert_mixed(&rt, rt.alloc(), &cells, &wanted);
}

#[test]
fn eight_units_at_both_ends(rt: HostRuntime) {
    let end = Wide {
        i: -2147483648,
        q: 2147483647,
    };
    let cells = [cell(5, Some(samples(end, end, end))); 8];
    let sum = Sum {
        i: -17179869184,
        q: 17179869176,
    };
    let wanted = [mixed(5, 8, sums(sum, sum, sum))];
    assert_mixed(&rt, rt.alloc(), &cells, &wanted);
    assert!(rt; mix(rt.alloc(), &[cell(5, None); 9]).is_none());
}
