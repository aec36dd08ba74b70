// The blocks of a slot's cells.
ghost use Rattle.std.specs.Prelude.{◌≡◌, ◌≢◌, ℕ, ◌+◌, ◌^◌, ◌<◌, ◌≤◌, ◌++◌, ◌∷◌, ◌==◌, [], false, get_or, length, IfOk, None, Some, option_copied, vec_capacity, vec_len};
ghost use Rattle.bfp_codec.specs.Layout.{HasWidth, length_of, unpacked_of};
ghost use Rattle.unit_model.specs.Claims.{is_from};
ghost use Rattle.fh_base.specs.Lists.{or_else};
ghost use Rattle.slot_rings.specs.Written.{AreBlankElsewhere};

use crate::lists::{items_from, reach};
use crate::packed::PackedRun;
use crate::written::{Spans, wipe};
use bfp_codec::{Method, Wide, unpack_into};
use fh_base::NoMemory;
use std::alloc::Global;
use std::marker::Model;
use unit_model::Block;

/// The blocks of some cells, lent.
#[derive(Clone, Copy)]
pub struct LentBlocks<'a> {
    /// Of each cell the number of its block, 1 for the first of the list, and 0 where it has none. Where they end, the cells
    /// after them have none.
    pub numbers: &'a [u16],
    /// The blocks, in the order in which they were received.
    pub list: &'a [Block],
}

/// The number of a cell's block.
fn number_at(numbers: &[u16], k: usize) -> u16
    ensures { result ≡ get_or numbers.now k 0 }
{
    if k < numbers.len() { numbers[k] } else { 0 }
}

/// Whether a cell has no block.
fn is_free(numbers: &Vec<u16>, k: usize) -> bool
    requires { k < vec_len numbers.now }
    ensures { result ≡ (get_or numbers.now.items k 0 == 0) }
{
    numbers[k] == 0
}

impl<'a> LentBlocks<'a> {
    ghost use Rattle.slot_rings.specs.Blocks.{block_lent};

    /// Of no cell.
    pub(crate) fn none() -> LentBlocks<'a>
        ensures { (k : ℕ) → block_lent result k ≡ None }
    {
        LentBlocks {
            numbers: &[],
            list: &[],
        }
    }

    /// Those of the cells from one number on.
    pub(crate) fn behind(&self, from: usize) -> LentBlocks<'a>
        ensures { (k : ℕ) → block_lent result k ≡ block_lent self.now (from + k) }
    {
        LentBlocks {
            numbers: items_from(self.numbers, from),
            list: self.list,
        }
    }

    /// The block of one cell.
    pub(crate) fn block(&self, k: usize) -> Option<&'a Block>
        ensures { option_copied result ≡ block_lent self.now k }
    {
        let number = number_at(self.numbers, k);
        if number == 0 {
            None
        } else {
            self.list.get(number as usize - 1)
        }
    }
}

/// Appends a block.
fn push(list: &mut Vec<Block>, block: &Block)
    requires room { vec_len list.old < vec_capacity list.old }
    ensures items { list.new.items ≡ list.old.items ++ block.now ∷ [] }
    ensures capacity { vec_capacity list.old ≤ vec_capacity list.new }
{
    let pushed = list.push(*block).is_ok();
    prove!(pushed);
}

/// Appends a block with the samples of a packed PRB, which is unpacked there.
fn push_packed(list: &mut Vec<Block>, id: u16, method: Method, packed: &[u8])
    requires room { vec_len list.old < vec_capacity list.old }
    requires width { HasWidth method }
    requires len { length packed.now ≡ length_of method }
    ensures items { list.new.items ≡ list.old.items ++ record { id = id; samples = unpacked_of method packed.now } ∷ [] }
    ensures capacity { vec_capacity list.old ≤ vec_capacity list.new }
{
    let last = list.len();
    let samples = [Wide { i: 0, q: 0 }; 12];
    let pushed = list.push(Block { id, samples }).is_ok();
    prove!(pushed);
    unpack_into(method, packed, &mut list[last].samples);
}

/// The blocks of the cells of a slot. Its memory is taken when it is made, for a block of each cell. A block is kept after those
/// that were received before it, so as much is written as was received.
#[derive(Drop)]
pub(crate) struct Blocks {
    // for so many there is room
    cells: u16,
    // of each cell the number of its block, 1 for the first of the list, and 0 where it has none
    numbers: Vec<u16>,
    list: Vec<Block>,
}

impl Model for Blocks {
    ghost use Rattle.std.specs.Prelude.{◌≤◌, vec_capacity};
    ghost use Rattle.slot_rings.specs.Blocks.{AreNumbers, BlocksValue, value_of};

    ghost Value = { BlocksValue };

    ghost view = { λ b. value_of b.cells b.numbers.items b.list.items };

    ghost invariant = { λ b. (b.cells ≤ vec_capacity b.numbers) × (b.cells ≤ vec_capacity b.list) × AreNumbers b.cells b.numbers.items b.list.items };
}

impl Blocks {
    ghost use Rattle.slot_rings.specs.Blocks.{block_lent, no_blocks};
    ghost use Rattle.slot_rings.specs.Runs.{packed_block, packed_samples};

    /// Takes all memory, for so many cells.
    pub(crate) fn make(alloc: Global, cells: u16) -> Result<Blocks, NoMemory>
        ensures { IfOk result (λ b. b ≡ no_blocks cells) }
    {
        let numbers = Vec::with_capacity(alloc, cells as usize)?;
        let list = Vec::with_capacity(alloc, cells as usize)?;
        Ok(Blocks {
            cells,
            numbers,
            list,
        })
    }

    /// Forgets all, where no cells have blocks but those that may have been written, on a carrier of so many PRBs.
    pub(crate) fn wipe(&mut self, spans: &Spans, prbs: u16)
        requires { AreBlankElsewhere None prbs spans.now self.old.items }
        ensures none { (k : ℕ) → get_or self.new.items k None ≡ None }
        ensures cells { self.new.cells ≡ self.old.cells }
    {
        wipe(&mut self.numbers, spans, prbs, 0);
        self.list.clear();
    }

    /// Lends them.
    pub(crate) fn lend(&self) -> LentBlocks<'_>
        ensures { (k : ℕ) → block_lent result k ≡ get_or self.now.items k None }
    {
        LentBlocks {
            numbers: self.numbers.as_slice(),
            list: self.list.as_slice(),
        }
    }

    /// Has a number for each of so many cells from number `from` on.
    fn reach(&mut self, from: usize, count: usize)
        requires { from + count ≤ self.old.cells }
        ensures same { (k : ℕ) → get_or self.new.items k None ≡ get_or self.old.items k None }
        ensures len { from + count ≤ length self.new.items }
        ensures few { from + count < 2 ^ 16 }
        ensures cells { self.new.cells ≡ self.old.cells }
    {
        reach(&mut self.numbers, from + count, 0);
    }

    /// Gives a cell a block, where it has none.
    fn put(&mut self, k: usize, block: &Block)
        requires { k < length self.old.items }
        ensures here { get_or self.new.items k None ≡ or_else (get_or self.old.items k None) (Some block.now) }
        ensures others { (i : ℕ) → i ≢ k → get_or self.new.items i None ≡ get_or self.old.items i None }
        ensures cells { self.new.cells ≡ self.old.cells }
    {
        if is_free(&self.numbers, k) {
            push(&mut self.list, block);
            self.numbers[k] = self.list.len() as u16;
        }
    }

    /// Gives a cell the samples of a packed PRB, where it has no block.
    fn put_packed(&mut self, k: usize, id: u16, method: Method, packed: &[u8])
        requires within { k < length self.old.items }
        requires width { HasWidth method }
        requires len { length packed.now ≡ length_of method }
        ensures here { get_or self.new.items k None ≡ or_else (get_or self.old.items k None) (Some (record { id = id; samples = unpacked_of method packed.now })) }
        ensures others { (i : ℕ) → i ≢ k → get_or self.new.items i None ≡ get_or self.old.items i None }
        ensures len { length self.new.items ≡ length self.old.items }
        ensures cells { self.new.cells ≡ self.old.cells }
    {
        if is_free(&self.numbers, k) {
            push_packed(&mut self.list, id, method, packed);
            self.numbers[k] = self.list.len() as u16;
        }
    }

    /// Gives a cell a block, where it has none.
    pub(crate) fn fill(&mut self, k: usize, block: &Block)
        requires { k < self.old.cells }
        ensures here { get_or self.new.items k None ≡ or_else (get_or self.old.items k None) (Some block.now) }
        ensures others { (i : ℕ) → i ≢ k → get_or self.new.items i None ≡ get_or self.old.items i None }
        ensures cells { self.new.cells ≡ self.old.cells }
    {
        self.reach(k, 1);
        self.put(k, block);
    }

    /// Gives cells from number `from` on the samples of packed PRBs, each where it has no block.
    pub(crate) fn fill_run(&mut self, from: usize, run: &PackedRun<'_>)
        requires width { HasWidth run.now.method }
        requires room { from + run.now.count ≤ self.old.cells }
        ensures here { (k : ℕ) → k < run.now.count → get_or self.new.items (from + k) None
            ≡ or_else (get_or self.old.items (from + k) None) (Some (packed_block run.now.id (packed_samples run.now) k)) }
        ensures others { (i : ℕ) → is_from from run.now.count i ≡ false → get_or self.new.items i None ≡ get_or self.old.items i None }
        ensures cells { self.new.cells ≡ self.old.cells }
    {
        let count = run.count as usize;
        self.reach(from, count);
        for k in 0..count {
            self.put_packed(from + k, run.id, run.method, run.prb(k));
        }
    }
}
