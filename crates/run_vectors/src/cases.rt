// An input, and what the last run wrote.
ghost use Rattle.std.specs.Prelude.{◌≡◌, ◌++◌, [], true, false, OnOk, IfOk};
ghost use Rattle.run_vectors.specs.Inputs.{repeated, standing};

use fh_base::{Bytes, NoMemory};
use std::alloc::Global;

/// The input of the next run, which a run leaves as it is: the first piece after a run begins another.
#[derive(Drop)]
pub struct Case {
    input: Bytes,
    is_used: bool,
    last: Bytes,
}

/// Appends a piece so many times.
fn push_times(into: &mut Bytes, times: u32, piece: &[u8]) -> Result<(), NoMemory>
    ensures { OnOk result (into.new ≡ into.old ++ repeated times piece.now) }
{
    for _ in 0..times {
        into.push_all(piece)?;
    }
    Ok(())
}

impl Case {
    /// No input, and no run.
    pub fn new(alloc: Global) -> Case
        ensures { (result.input ≡ []) × (result.last ≡ []) × (result.is_used ≡ false) }
    {
        Case {
            input: Bytes::new(alloc),
            is_used: false,
            last: Bytes::new(alloc),
        }
    }

    /// Forgets the input.
    pub fn clear(&mut self)
        ensures input { (self.new.input ≡ []) × (self.new.is_used ≡ false) }
        ensures last { self.new.last ≡ self.old.last }
    {
        self.input.clear();
        self.is_used = false;
    }

    /// Forgets an input that a run had.
    fn begin(&mut self)
        ensures input { (self.new.input ≡ standing self.old.is_used self.old.input) × (self.new.is_used ≡ false) }
        ensures last { self.new.last ≡ self.old.last }
    {
        if self.is_used {
            self.clear();
        }
    }

    /// The input goes on with a piece, so many times.
    pub fn add(&mut self, times: u32, piece: &[u8]) -> Result<(), NoMemory>
        ensures input { OnOk result (self.new.input ≡ standing self.old.is_used self.old.input ++ repeated times piece.now) }
        ensures begun { self.new.is_used ≡ false }
        ensures last { self.new.last ≡ self.old.last }
    {
        self.begin();
        push_times(&mut self.input, times, piece)
    }

    /// The input goes on with what the last run wrote.
    pub fn add_last(&mut self) -> Result<(), NoMemory>
        ensures input { OnOk result (self.new.input ≡ standing self.old.is_used self.old.input ++ self.old.last) }
        ensures begun { self.new.is_used ≡ false }
        ensures last { self.new.last ≡ self.old.last }
    {
        self.begin();
        self.input.push_all(self.last.as_slice())
    }

    /// A copy of the input, for a run.
    pub fn use_input(&mut self, alloc: Global) -> Result<Bytes, NoMemory>
        ensures copy { IfOk result (λ bytes. bytes ≡ self.old.input) }
        ensures used { self.new.is_used ≡ true }
        ensures same { (self.new.input ≡ self.old.input) × (self.new.last ≡ self.old.last) }
    {
        self.is_used = true;
        let mut input = Bytes::new(alloc);
        input.push_all(self.input.as_slice())?;
        Ok(input)
    }

    /// Keeps what a run wrote.
    pub fn keep(&mut self, written: &[u8]) -> Result<(), NoMemory>
        ensures last { OnOk result (self.new.last ≡ written.now) }
        ensures same { (self.new.input ≡ self.old.input) × (self.new.is_used ≡ self.old.is_used) }
    {
        self.last.clear();
        self.last.push_all(written)
    }
}
