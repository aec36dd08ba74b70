// What is added up of the cells of a line.
ghost use Rattle.std.specs.Prelude.{◌≡◌, ℕ, ◌+◌, ◌*◌, ◌%◌, ◌<◌};
ghost use Rattle.report_airs.specs.Totals.{no_totals, with_sample, with_element, samples_totals, cell_totals, plus, IsWithin};

use air_source::AirCell;
use bfp_codec::Wide;

/// Sums over cells.
#[derive(Clone, Copy)]
pub struct Totals {
    /// How many elements are shown.
    pub elements: u64,
    /// The sum of their I.
    pub i: i64,
    /// The sum of their Q.
    pub q: i64,
    /// How many cells are missing.
    pub missing: u64,
}

/// The sums with one more element.
fn with_sample(totals: Totals, sample: Wide) -> Totals
    requires { IsWithin 11 totals }
    ensures value { result ≡ with_sample sample totals }
    ensures within { (n : ℕ) → IsWithin n totals → IsWithin (n + 1) result }
{
    Totals {
        elements: totals.elements + 1,
        i: totals.i + i64::from(sample.i),
        q: totals.q + i64::from(sample.q),
        missing: totals.missing,
    }
}

/// The sums with element k of a block, where it is in the mask.
fn with_element(totals: Totals, mask: u16, sample: Wide, k: usize) -> Totals
    requires inside { k < 12 }
    requires room { IsWithin 11 totals }
    ensures value { result ≡ with_element mask sample k totals }
    ensures within { (n : ℕ) → IsWithin n totals → IsWithin (n + 1) result }
{
    if (mask >> (11 - k)) & 1 == 1 {
        with_sample(totals, sample)
    } else {
        totals
    }
}

/// No element.
fn no_totals() -> Totals
    ensures { result ≡ no_totals }
{
    Totals {
        elements: 0,
        i: 0,
        q: 0,
        missing: 0,
    }
}

/// The sums of all elements of a block, which the mask has.
fn all_totals(mask: u16, block: &[Wide; 12]) -> Totals
    requires full { mask % 4096 ≡ 4095 }
    ensures value { result ≡ samples_totals mask block.now 12 }
    ensures within { IsWithin 12 result }
{
    let mut totals = no_totals();
    for k in 0..12 {
        totals = with_sample(totals, block[k]);
    }
    totals
}

/// The sums of the elements that any mask has of a block.
fn some_totals(mask: u16, block: &[Wide; 12]) -> Totals
    ensures value { result ≡ samples_totals mask block.now 12 }
    ensures within { IsWithin 12 result }
{
    let mut totals = no_totals();
    for k in 0..12 {
        totals = with_element(totals, mask, block[k], k);
    }
    totals
}

/// The sums of the elements that the mask has of a block.
fn samples_totals(mask: u16, block: &[Wide; 12]) -> Totals
    ensures value { result ≡ samples_totals mask block.now 12 }
    ensures within { IsWithin 12 result }
{
    if mask % 0x1000 == 0xfff {
        all_totals(mask, block)
    } else {
        some_totals(mask, block)
    }
}

/// What a cell adds to a line.
pub fn cell_totals(c: &AirCell) -> Totals
    ensures value { result ≡ cell_totals c.now }
    ensures within { IsWithin 12 result }
{
    match &c.block {
        None => Totals {
            elements: 0,
            i: 0,
            q: 0,
            missing: 1,
        },
        Some(block) => samples_totals(c.mask, block),
    }
}

/// The sums of some cells and of one more: of at most 65,535 cells before it, as PRBs have 16 bits.
pub fn plus(before: Totals, cell: Totals) -> Totals
    requires before { IsWithin (12 * 65535) before }
    requires cell { IsWithin 12 cell }
    ensures value { result ≡ plus before cell }
    ensures within { (n : ℕ) → IsWithin n before → IsWithin (n + 12) result }
{
    Totals {
        elements: before.elements + cell.elements,
        i: before.i + cell.i,
        q: before.q + cell.q,
        missing: before.missing + cell.missing,
    }
}
