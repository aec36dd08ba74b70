// Which arrival gave a PRB its block.
ghost use Rattle.std.specs.Prelude.{◌≡◌, ◌+◌, ◌<◌, ◌≤◌, ◌++◌, [], ◌∷◌, map, if◌then◌else◌, ◌==◌, IfOk, OnOk};
ghost use Rattle.explain_units.specs.Blocks.{chain_of, fresh_count, given_chain, gives_prb, giver_of};

use crate::chains::Chains;
use fh_base::{NoMemory, Slot};
use std::alloc::Global;
use std::marker::Model;
use unit_model::{is_from, same_slot};

/// A symbol of an endpoint with this id has a block for each of these PRBs, at the latest since this arrival.
#[derive(Clone, Copy)]
pub struct Given {
    pub id: u16,
    pub slot: Slot,
    pub symbol: u8,
    /// The first PRB.
    pub first: u16,
    /// How many PRBs.
    pub count: u16,
    /// The number of the arrival.
    pub number: u32,
}

/// How many chains there are.
const CHAINS: usize = 32_768;

// The chain in which what is given for a symbol is kept.
fn chain_of(slot: &Slot, symbol: u8) -> usize
    ensures value { result ≡ chain_of slot.now symbol }
    ensures within { result < 32768 }
{
    let frame = slot.frame.rem_euclid(16) as usize;
    let subframe = (slot.subframe % 16) as usize;
    let number = (slot.slot % 8) as usize;
    ((frame * 16 + subframe) * 8 + number) * 16 + (symbol % 16) as usize
}

// Whether it gives a block to a PRB.
fn gives_prb(given: &Given, id: u16, slot: &Slot, symbol: u8, prb: u16) -> bool
    ensures { result ≡ gives_prb given.now id slot.now symbol prb }
{
    given.id == id
        && same_slot(&given.slot, slot)
        && given.symbol == symbol
        && is_from(given.first, given.count, prb)
}

// The arrival that gave the PRB its block where an earlier one is put before what was found.
fn earlier_giver(given: &Given, id: u16, slot: &Slot, symbol: u8, prb: u16, giver: u32) -> u32
    ensures { result ≡ (if gives_prb given.now id slot.now symbol prb then given.now.number else giver) }
{
    if gives_prb(given, id, slot, symbol, prb) {
        given.number
    } else {
        giver
    }
}

// The first arrival that gave a block to a PRB of a symbol, along its chain; 0 where none did.
#[tactic(auto, using(crate::proofs::BlockLemmas::search_ends))]
fn giver_in(all: &Chains<Given>, id: u16, slot: &Slot, symbol: u8, prb: u16) -> u32
    requires count { all.now.count ≡ 32768 }
    requires chains { all.now.chains ≡ map given_chain all.now.items }
    ensures { result ≡ giver_of all.now.items id slot.now symbol prb }
{
    let mut giver = 0;
    let mut at = all.last(chain_of(slot, symbol));
    while at != 0 {
        let given = all.item(at - 1);
        giver = earlier_giver(given, id, slot, symbol, prb, giver);
        at = all.before(at - 1);
    }
    giver
}

/// The sections of data that were on time, as far as they say which PRBs have blocks. Contracts see them as the list of them, in the
/// order in which they were received.
#[derive(Drop)]
pub struct Blocks {
    given: Chains<Given>,
}

impl Model for Blocks {
    ghost use Rattle.std.specs.Prelude.{◌≡◌, List, map};
    ghost use Rattle.explain_units.specs.Blocks.{given_chain};
    ghost use Rattle.explain_units.specs.declared.blocks.Given.{Given};

    ghost Value = { List Given };

    ghost view = { λ b. b.given.items };

    ghost invariant = { λ b. (b.given.count ≡ 32768) × (b.given.chains ≡ map given_chain b.given.items) };
}

impl Blocks {
    /// Nothing was given.
    pub fn make(alloc: Global) -> Result<Blocks, NoMemory>
        ensures { IfOk result (λ b. b ≡ []) }
    {
        let given = Chains::make(alloc, CHAINS)?;
        Ok(Blocks { given })
    }

    /// A section was on time.
    pub fn push(&mut self, given: Given) -> Result<(), NoMemory>
        ensures ok { OnOk result (self.new ≡ self.old ++ given ∷ []) }
    {
        self.given.push(chain_of(&given.slot, given.symbol), given)
    }

    /// The first arrival that gave a block to a PRB of a symbol, 0 where it has none.
    pub fn giver(&self, id: u16, slot: &Slot, symbol: u8, prb: u16) -> u32
        ensures { result ≡ giver_of self.now id slot.now symbol prb }
    {
        giver_in(&self.given, id, slot, symbol, prb)
    }

    // Whether a PRB of the symbol of a section has no block.
    fn is_fresh(&self, given: &Given, prb: u16) -> bool
        ensures { result ≡ (giver_of self.now given.now.id given.now.slot given.now.symbol prb == 0) }
    {
        self.giver(given.id, &given.slot, given.symbol, prb) == 0
    }

    /// How many of these PRBs of a symbol have no block.
    pub fn fresh_count(&self, given: &Given) -> u16
        requires { given.now.first + given.now.count ≤ 65535 }
        ensures { result ≡ fresh_count self.now given.now }
    {
        let mut fresh = 0;
        for k in 0..given.count {
            if self.is_fresh(given, given.first + k) {
                fresh += 1;
            }
        }
        fresh
    }
}
