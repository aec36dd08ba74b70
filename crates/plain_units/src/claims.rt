// What accepted sections claim of a cell's elements.
ghost use Rattle.std.specs.Prelude.{◌≡◌, ◌<◌, not, ◌&&◌, ◌||◌, is_some};
ghost use Rattle.unit_model.specs.Claims.{same_way, first_prb, prb_count, covers, in_mask, names, claim_of, claim_at, cell_of, is_under, is_other, is_claimed, is_overlapped, repeats, overlaps};
ghost use Rattle.fh_base.specs.Lists.{every, some};
ghost use Rattle.unit_model.specs.Sound.{IsSoundAllocation};

use unit_model::{Allocation, Cell, Claim, is_from, same_slot};

/// Whether two directions are the same.
pub(crate) fn same_way(a: bool, b: bool) -> bool
    ensures { result ≡ same_way a b }
{
    if a { b } else { !b }
}

/// The first PRB that an allocation covers.
pub(crate) fn first_prb(a: &Allocation) -> u16
    ensures { result ≡ first_prb a.now }
{
    if a.num_prb == 0 { 0 } else { a.start_prb }
}

/// How many PRBs it covers.
pub(crate) fn prb_count(a: &Allocation) -> u16
    ensures { result ≡ prb_count a.now }
{
    if a.num_prb == 0 {
        a.endpoint.prbs
    } else {
        u16::from(a.num_prb)
    }
}

/// Whether a mask has element `re`: element 0 is the most significant of its 12 bits.
pub(crate) fn in_mask(mask: u16, re: u8) -> bool
    requires { re < 12 }
    ensures { result ≡ in_mask mask re }
{
    (mask >> (11 - re)) % 2 == 1
}

/// Whether a cell is in the symbols and PRBs of an allocation.
pub(crate) fn covers(a: &Allocation, cell: &Cell) -> bool
    ensures { result ≡ covers a.now cell.now }
{
    a.ep == cell.ep
        && same_way(a.down, cell.down)
        && same_slot(&a.slot, &cell.slot)
        && is_from(
            u16::from(a.symbol),
            u16::from(a.num_symbol),
            u16::from(cell.symbol),
        )
        && is_from(first_prb(a), prb_count(a), cell.prb)
}

/// Whether an allocation names element `re` of a cell.
pub(crate) fn names(a: &Allocation, cell: &Cell, re: u8) -> bool
    requires { re < 12 }
    ensures { result ≡ names a.now cell.now re }
{
    covers(a, cell) && in_mask(a.mask, re)
}

/// The claim on element `re` of a cell, where these allocations were accepted, the newest first.
pub(crate) fn claim_at(accepted: &[Allocation], cell: &Cell, re: u8) -> Option<Claim>
    requires { re < 12 }
    ensures { result ≡ claim_at accepted.now cell.now re }
{
    for a in accepted {
        if names(a, cell, re) {
            return Some(Claim {
                id: a.section,
                idle: a.idle,
            });
        }
    }
    None
}

/// The cell of an allocation at a symbol and a PRB.
fn cell_of(a: &Allocation, symbol: u8, prb: u16) -> Cell
    ensures { result ≡ cell_of a.now symbol prb }
{
    Cell {
        ep: a.ep,
        down: a.down,
        slot: a.slot,
        symbol,
        prb,
    }
}

/// Whether there is a claim, and it is under this section id.
fn is_under(id: u16, claim: Option<Claim>) -> bool
    ensures { result ≡ is_under id claim }
{
    match claim {
        None => false,
        Some(claim) => claim.id == id,
    }
}

/// Whether there is a claim, and it is under another section id.
fn is_other(id: u16, claim: Option<Claim>) -> bool
    ensures { result ≡ is_other id claim }
{
    match claim {
        None => false,
        Some(claim) => claim.id != id,
    }
}

/// Whether an element of a cell is claimed under this section id, or the mask does not name it.
fn is_element_claimed(id: u16, mask: u16, accepted: &[Allocation], cell: &Cell, re: u8) -> bool
    requires { re < 12 }
    ensures { result ≡ (not (in_mask mask re) || is_under id (claim_at accepted.now cell.now re)) }
{
    !in_mask(mask, re) || is_under(id, claim_at(accepted, cell, re))
}

/// Whether each element of a cell that the mask names is claimed under this section id.
pub(crate) fn is_claimed(id: u16, mask: u16, accepted: &[Allocation], cell: &Cell) -> bool
    ensures { result ≡ is_claimed id mask (claim_at accepted.now cell.now) }
{
    for re in 0..12 {
        if !is_element_claimed(id, mask, accepted, cell, re) {
            return false;
        }
    }
    true
}

/// Whether an element of a cell is claimed, where the mask names it or the claim is under another section id.
fn is_element_overlapped(id: u16, mask: u16, accepted: &[Allocation], cell: &Cell, re: u8) -> bool
    requires { re < 12 }
    ensures { result ≡ ((in_mask mask re && is_some (claim_at accepted.now cell.now re)) || is_other id (claim_at accepted.now cell.now re)) }
{
    let claim = claim_at(accepted, cell, re);
    (in_mask(mask, re) && claim.is_some()) || is_other(id, claim)
}

/// Whether an element of a cell that the mask names is claimed, or the cell is claimed under another section id.
pub(crate) fn is_overlapped(id: u16, mask: u16, accepted: &[Allocation], cell: &Cell) -> bool
    ensures { result ≡ is_overlapped id mask (claim_at accepted.now cell.now) }
{
    for re in 0..12 {
        if is_element_overlapped(id, mask, accepted, cell, re) {
            return true;
        }
    }
    false
}

/// Whether in one symbol of an allocation each element that it names is claimed under its section id.
fn repeats_in(accepted: &[Allocation], a: &Allocation, symbol: u8) -> bool
    requires { IsSoundAllocation a.now }
    ensures { result ≡ every (first_prb a.now) (prb_count a.now) (λ n. is_claimed a.now.section a.now.mask (claim_at accepted.now (cell_of a.now symbol n))) }
{
    let first = first_prb(a);
    for prb in first..first + prb_count(a) {
        if !is_claimed(a.section, a.mask, accepted, &cell_of(a, symbol, prb)) {
            return false;
        }
    }
    true
}

/// Whether each element that an allocation names is claimed under its section id.
pub(crate) fn repeats(accepted: &[Allocation], a: &Allocation) -> bool
    requires { IsSoundAllocation a.now }
    ensures { result ≡ repeats accepted.now a.now }
{
    for symbol in a.symbol..a.symbol + a.num_symbol {
        if !repeats_in(accepted, a, symbol) {
            return false;
        }
    }
    true
}

/// Whether in one symbol of an allocation an element that it names is claimed, or a cell is claimed under another section id.
fn overlaps_in(accepted: &[Allocation], a: &Allocation, symbol: u8) -> bool
    requires { IsSoundAllocation a.now }
    ensures { result ≡ some (first_prb a.now) (prb_count a.now) (λ n. is_overlapped a.now.section a.now.mask (claim_at accepted.now (cell_of a.now symbol n))) }
{
    let first = first_prb(a);
    for prb in first..first + prb_count(a) {
        if is_overlapped(a.section, a.mask, accepted, &cell_of(a, symbol, prb)) {
            return true;
        }
    }
    false
}

/// Whether an element that an allocation names is claimed, or a cell that it covers is claimed under another section id.
pub(crate) fn overlaps(accepted: &[Allocation], a: &Allocation) -> bool
    requires { IsSoundAllocation a.now }
    ensures { result ≡ overlaps accepted.now a.now }
{
    for symbol in a.symbol..a.symbol + a.num_symbol {
        if overlaps_in(accepted, a, symbol) {
            return true;
        }
    }
    false
}
