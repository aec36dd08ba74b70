// What a section overlaps.
ghost use Rattle.std.specs.Prelude.{◌≡◌, ◌+◌, ◌<◌, ◌≤◌, ◌∷◌, [], map, IfOk, OnOk};
ghost use Rattle.std.specs.Option.{option_map};
ghost use Rattle.explain_units.specs.Fit.{IsOnCarrier};
ghost use Rattle.explain_units.specs.Claims.{allocation_chain, first_id, is_clashing, slot_chain};
ghost use Rattle.fh_base.specs.Lists.{onto};
ghost use Rattle.explain_model.specs.Judged.{clash_at, clash_in, first_at};
ghost use Rattle.unit_model.specs.Claims.{cell_of, claim_at, covers, first_prb, in_mask, is_overlapped, names, prb_count, same_way};

use crate::chains::Chains;
use explain_model::Clash;
use fh_base::{NoMemory, Slot};
use std::alloc::Global;
use std::marker::Model;
use unit_model::{Allocation, is_from, same_slot};

/// How many chains there are.
const CHAINS: usize = 2_048;

// The chain in which the sections of a slot are kept.
fn slot_chain(slot: &Slot) -> usize
    ensures value { result ≡ slot_chain slot.now }
    ensures within { result < 2048 }
{
    let frame = slot.frame.rem_euclid(16) as usize;
    let subframe = (slot.subframe % 16) as usize;
    (frame * 16 + subframe) * 8 + (slot.slot % 8) as usize
}

// Whether an accepted section covers a cell of another one.
fn covers(accepted: &Allocation, a: &Allocation, symbol: u8, prb: u16) -> bool
    ensures { result ≡ covers accepted.now (cell_of a.now symbol prb) }
{
    let prbs = accepted.prbs();
    accepted.ep == a.ep
        && accepted.down == a.down
        && same_slot(&accepted.slot, &a.slot)
        && is_from(
            u16::from(accepted.symbol),
            u16::from(accepted.num_symbol),
            u16::from(symbol),
        )
        && is_from(prbs.first, prbs.count, prb)
}

// Whether a mask has an element.
fn in_mask(mask: u16, element: u8) -> bool
    requires { element < 12 }
    ensures { result ≡ in_mask mask element }
{
    (mask >> (11 - element)) & 1 == 1
}

// Whether an accepted section claims an element of a cell of another one.
fn names(accepted: &Allocation, a: &Allocation, symbol: u8, prb: u16, element: u8) -> bool
    requires { element < 12 }
    ensures { result ≡ names accepted.now (cell_of a.now symbol prb) element }
{
    covers(accepted, a, symbol, prb) && in_mask(accepted.mask, element)
}

// The section id under which an element of a cell of a section is claimed, along the chain of its slot.
#[tactic(auto, using(crate::proofs::ClaimLemmas::claim_begins, crate::proofs::ClaimLemmas::claim_goes, crate::proofs::ClaimLemmas::claim_found, crate::proofs::ClaimLemmas::claim_ends))]
fn claim_in(
    all: &Chains<Allocation>,
    a: &Allocation,
    symbol: u8,
    prb: u16,
    element: u8,
) -> Option<u16>
    requires element { element < 12 }
    requires count { all.now.count ≡ 2048 }
    requires chains { all.now.chains ≡ map allocation_chain all.now.items }
    ensures { result ≡ option_map (λ c. c.id) (claim_at (onto [] all.now.items) (cell_of a.now symbol prb) element) }
{
    let mut at = all.last(slot_chain(&a.slot));
    while at != 0 {
        let accepted = all.item(at - 1);
        if names(accepted, a, symbol, prb, element) {
            return Some(accepted.section);
        }
        at = all.before(at - 1);
    }
    None
}

/// The accepted sections of commands. Contracts see them as the list of them, the newest first.
#[derive(Drop)]
pub struct Claims {
    accepted: Chains<Allocation>,
}

impl Model for Claims {
    ghost use Rattle.std.specs.Prelude.{◌≡◌, [], List, map};
    ghost use Rattle.explain_units.specs.Claims.{allocation_chain};
    ghost use Rattle.fh_base.specs.Lists.{onto};
    ghost use Rattle.unit_model.specs.declared.allocations.Allocation.{Allocation};

    ghost Value = { List Allocation };

    ghost view = { λ c. onto [] c.accepted.items };

    ghost invariant = { λ c. (c.accepted.count ≡ 2048) × (c.accepted.chains ≡ map allocation_chain c.accepted.items) };
}

impl Claims {
    /// Nothing was accepted.
    #[tactic(auto, unfolding(fh_base::specs::Lists::onto))]
    pub fn make(alloc: Global) -> Result<Claims, NoMemory>
        ensures { IfOk result (λ c. c ≡ []) }
    {
        let accepted = Chains::make(alloc, CHAINS)?;
        Ok(Claims { accepted })
    }

    /// A section was accepted.
    #[tactic(auto, using(crate::proofs::ClaimLemmas::onto_one))]
    pub fn push(&mut self, accepted: Allocation) -> Result<(), NoMemory>
        ensures { OnOk result (self.new ≡ accepted ∷ self.old) }
    {
        self.accepted.push(slot_chain(&accepted.slot), accepted)
    }

    // The section id under which an element of a cell of a section is claimed.
    fn claim_id(&self, a: &Allocation, symbol: u8, prb: u16, element: u8) -> Option<u16>
        requires { element < 12 }
        ensures { result ≡ option_map (λ c. c.id) (claim_at self.now (cell_of a.now symbol prb) element) }
    {
        claim_in(&self.accepted, a, symbol, prb, element)
    }

    // Whether a section cannot have an element of a cell.
    fn is_clashing(&self, a: &Allocation, symbol: u8, prb: u16, element: u8) -> bool
        requires { element < 12 }
        ensures { result ≡ is_clashing a.now (claim_at self.now (cell_of a.now symbol prb)) element }
    {
        match self.claim_id(a, symbol, prb, element) {
            None => false,
            Some(id) => in_mask(a.mask, element) || id != a.section,
        }
    }

    // Whether it cannot have the cell.
    fn is_overlapped(&self, a: &Allocation, symbol: u8, prb: u16) -> bool
        ensures { result ≡ is_overlapped a.now.section a.now.mask (claim_at self.now (cell_of a.now symbol prb)) }
    {
        for element in 0..12 {
            if self.is_clashing(a, symbol, prb, element) {
                return true;
            }
        }
        false
    }

    // The section id under which the first claimed element of a cell is claimed, 0 where there is none.
    fn first_id(&self, a: &Allocation, symbol: u8, prb: u16) -> u16
        ensures { result ≡ first_id (claim_at self.now (cell_of a.now symbol prb)) }
    {
        for element in 0..12 {
            if let Some(id) = self.claim_id(a, symbol, prb, element) {
                return id;
            }
        }
        0
    }

    // A cell of a section, where it cannot have it.
    fn clash_at(&self, a: &Allocation, symbol: u8, prb: u16) -> Option<Clash>
        ensures { result ≡ clash_at self.now a.now symbol prb }
    {
        if !self.is_overlapped(a, symbol, prb) {
            return None;
        }
        Some(Clash {
            section: self.first_id(a, symbol, prb),
            symbol,
            prb,
        })
    }

    // The first cell of a symbol of a section that the section cannot have.
    fn clash_in(&self, a: &Allocation, symbol: u8) -> Option<Clash>
        requires { first_prb a.now + prb_count a.now ≤ 65535 }
        ensures { result ≡ first_at (first_prb a.now) (prb_count a.now) (λ n. clash_at self.now a.now symbol n) }
    {
        let prbs = a.prbs();
        for k in 0..prbs.count {
            if let Some(clash) = self.clash_at(a, symbol, prbs.first + k) {
                return Some(clash);
            }
        }
        None
    }

    /// The first cell of a section that it cannot have, by symbol and then by PRB.
    pub fn clash(&self, a: &Allocation) -> Option<Clash>
        requires { IsOnCarrier a.now }
        ensures { result ≡ clash_in self.now a.now }
    {
        for k in 0..a.num_symbol {
            if let Some(clash) = self.clash_in(a, a.symbol + k) {
                return Some(clash);
            }
        }
        None
    }
}
