// The verdicts on sections of data, and what they give a cell.
ghost use Rattle.std.specs.Prelude.{◌≡◌, All};
ghost use Rattle.unit_model.specs.Terms.{IsWithinLimits};
ghost use Rattle.unit_model.specs.Blocks.{data_slot, data_class, first_data_prb, data_prb_count, data_covers, block_in, block_at, has_all, data_verdict};
ghost use Rattle.unit_model.specs.Claims.{cell_at};
ghost use Rattle.unit_model.specs.Sound.{IsSoundData};

use crate::claims::same_way;
use crate::slots::{data_slot, data_start};
use air_source::Side;
use unit_model::{Block, Cell, DataVerdict, UserSection, is_from, same_slot};
use window_config::{Class, Delays, class, class_up, data_window};

/// The first PRB that a section of data has.
pub(crate) fn first_data_prb(d: &UserSection) -> u16
    ensures { result ≡ first_data_prb d.now }
{
    if d.section.num_prb == 0 {
        0
    } else {
        d.section.start_prb
    }
}

/// How many PRBs it has.
pub(crate) fn data_prb_count(d: &UserSection) -> u16
    ensures { result ≡ data_prb_count d.now }
{
    if d.section.num_prb == 0 {
        d.endpoint.prbs
    } else {
        u16::from(d.section.num_prb)
    }
}

/// Whether a cell is in the symbol and the PRBs of a section of data.
pub(crate) fn data_covers(d: &UserSection, cell: &Cell) -> bool
    requires { IsSoundData d.now }
    ensures { result ≡ data_covers d.now cell.now }
{
    d.ep == cell.ep
        && same_way(d.head.down, cell.down)
        && same_slot(&data_slot(d), &cell.slot)
        && d.section.symbol == cell.symbol
        && is_from(first_data_prb(d), data_prb_count(d), cell.prb)
}

/// What a section of data gives a cell.
pub(crate) fn block_in(d: &UserSection, cell: &Cell) -> Option<Block>
    requires { IsSoundData d.now }
    ensures { result ≡ block_in d.now cell.now }
{
    if !data_covers(d, cell) {
        return None;
    }
    let k = usize::from(cell.prb - first_data_prb(d));
    match d.blocks.get(k) {
        Some(samples) => Some(Block {
            id: d.section.id,
            samples: *samples,
        }),
        None => None,
    }
}

/// The block of a cell, where these were received on time, the newest first: that of the first of them that covers it.
pub(crate) fn block_at(timely: &[UserSection], cell: &Cell) -> Option<Block>
    requires { All IsSoundData timely.now }
    ensures { result ≡ block_at timely.now cell.now }
{
    let mut found = None;
    for d in timely {
        let block = block_in(d, cell);
        if block.is_some() {
            found = block;
        }
    }
    found
}

/// Whether data is on time, by its own symbol: before it at the radio unit, after it at the distributed unit.
#[tactic(auto, using(unit_model::proofs::BlockLemmas::windows))]
pub(crate) fn data_class(side: Side, delays: &Delays, d: &UserSection) -> Class
    requires limits { IsWithinLimits delays.now }
    requires sound { IsSoundData d.now }
    ensures { result ≡ data_class side delays.now d.now }
{
    match side {
        Side::Ru => class(d.first, d.last, data_start(d), data_window(delays)),
        Side::Du => class_up(d.first, d.last, data_start(d), delays.ta4),
    }
}

/// The cell of a section of data at a PRB.
fn data_cell(d: &UserSection, prb: u16) -> Cell
    requires { IsSoundData d.now }
    ensures { result ≡ cell_at d.now.ep d.now.head.down (data_slot d.now) d.now.section.symbol prb }
{
    Cell {
        ep: d.ep,
        down: d.head.down,
        slot: data_slot(d),
        symbol: d.section.symbol,
        prb,
    }
}

/// Whether each cell of a section of data has a block.
pub(crate) fn has_all(timely: &[UserSection], d: &UserSection) -> bool
    requires timely { All IsSoundData timely.now }
    requires sound { IsSoundData d.now }
    ensures { result ≡ has_all timely.now d.now }
{
    // the proof needs the range of this number
    let _carrier = d.endpoint.prbs;
    let first = first_data_prb(d);
    for prb in first..first + data_prb_count(d) {
        let block = block_at(timely, &data_cell(d, prb));
        if block.is_none() {
            return false;
        }
    }
    true
}

/// The verdict on a section of data, where these were received on time before it, the newest first.
#[tactic(auto, unfolding(unit_model::specs::Blocks::data_verdict))]
pub(crate) fn data_verdict(
    side: Side,
    delays: &Delays,
    timely: &[UserSection],
    d: &UserSection,
) -> DataVerdict
    requires limits { IsWithinLimits delays.now }
    requires timely { All IsSoundData timely.now }
    requires sound { IsSoundData d.now }
    ensures { result ≡ data_verdict side delays.now timely.now d.now }
{
    match data_class(side, delays, d) {
        Class::Late => DataVerdict::Late,
        Class::Early => DataVerdict::Early,
        Class::OnTime => {
            if has_all(timely, d) {
                DataVerdict::Repeat
            } else {
                DataVerdict::Taken
            }
        }
    }
}
