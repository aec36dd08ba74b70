// The records of a unit's fragments.
ghost use Rattle.std.specs.Prelude.{◌≡◌, ◌++◌, ◌+◌, ◌*◌, [], ◌∷◌, ℕ, ℤ, List, Option, IfOk, IfSome, IsTrue, OnOk, OnErr, slice_get};
ghost use Rattle.explain_records.specs.declared.generations.LastGeneration.{LastGeneration as SpecGeneration};
ghost use Rattle.air_source.specs.declared.events.Side.{Side as SpecSide};
ghost use Rattle.explain_model.specs.Fragments.{NumberedFragment, beginnings_after, repeated_after};
ghost use Rattle.explain_records.specs.Recorded.{unfinished_in};
ghost use Rattle.unit_model.specs.Proper.{IsTime};
ghost use Rattle.unit_model.specs.Reports.{hold_of};
ghost use Rattle.window_config.specs.Configs.{IsConfig};

use crate::beginnings::{Beginning, join};
use crate::generations::{LastGeneration, found};
use crate::told::{FragmentTold, told};
use air_source::Side;
use explain_heard::FragmentHeard;
use explain_model::{BeginningRecord, RepeatedRecord};
use fh_base::{NoMemory, Ticks, of_ns};
use std::alloc::Global;
use window_config::Config;

/// How many sequence ids an endpoint has.
const IDS: usize = 256;

/// The time, in ticks, up to which a unit is given frames, and as long before 0.
const MOST_TIME: i64 = 9_007_199_254_740_992;

/// The fragments that were received at a unit, as far as reasons need them.
#[derive(Drop)]
pub struct FragmentRecords {
    side: Side,
    hold: Ticks,
    last: Vec<Option<LastGeneration>>,
    begun: Vec<Beginning>,
    repeated: Vec<RepeatedRecord>,
}

/// How long a generation of fragments holds at a unit.
fn hold_at(side: Side, config: &Config) -> Ticks
    requires { IsConfig config.now }
    ensures { result.0 ≡ hold_of side config.now.delays }
{
    match side {
        Side::Ru => of_ns(config.delays.hold_dl),
        Side::Du => of_ns(config.delays.hold_ul),
    }
}

/// Whether it is a time that a unit may be given.
fn is_time(at: Ticks) -> bool
    ensures { IsTrue result → IsTime at.0 }
{
    at.0 >= -MOST_TIME && at.0 <= MOST_TIME
}

/// The place of a sequence id of an endpoint, where it can be told.
fn place(ep: usize, seq: u8) -> Option<usize>
    ensures { IfSome result (λ n. n ≡ ep * 256 + seq) }
{
    ep.checked_mul(IDS)?.checked_add(usize::from(seq))
}

/// No generation in each of some places.
fn no_generations(alloc: Global, count: usize) -> Result<Vec<Option<LastGeneration>>, NoMemory>
    ensures { IfOk result (λ v. (k : ℕ) (o : Option SpecGeneration) → slice_get v.items k ≡ Some o → o ≡ None) }
{
    let mut last = Vec::with_capacity(alloc, count)?;
    for _k in 0..count {
        last.push(None)?;
    }
    Ok(last)
}

/// The records of those beginnings whose messages are not whole.
fn unfinished_of(alloc: Global, begun: &[Beginning]) -> Result<Vec<BeginningRecord>, NoMemory>
    ensures { IfOk result (λ v. v.items ≡ unfinished_in begun.now) }
{
    let mut all = Vec::new(alloc);
    for b in begun {
        if !b.is_whole {
            all.push(b.kept)?;
        }
    }
    Ok(all)
}

impl FragmentRecords {
    ghost use Rattle.explain_records.specs.Units.{AreRecordsOf, Comes, Moves, Rests};
    ghost use Rattle.explain_records.specs.Turns.{told_of};

    /// Takes the memory for a unit's endpoints and sequence ids; later growth takes it from `alloc`. No fragment was received.
    pub fn make(alloc: Global, side: Side, config: &Config) -> Result<FragmentRecords, NoMemory>
        requires { IsConfig config.now }
        ensures { IfOk result (λ r. AreRecordsOf side (hold_of side config.now.delays) [] r) }
    {
        let last = no_generations(alloc, config.endpoints.as_slice().len() * IDS)?;
        Ok(FragmentRecords {
            side,
            hold: hold_at(side, config),
            last,
            begun: Vec::new(alloc),
            repeated: Vec::new(alloc),
        })
    }

    /// Keeps a fragment in its generation.
    fn put(&mut self, told: &FragmentTold) -> Result<(), NoMemory>
        ensures ok { OnOk result (Moves told.now self.old self.new) }
        ensures err { OnErr result (Rests self.old self.new) }
    {
        let k = match place(told.ep, told.seq) {
            Some(k) => k,
            None => return Err(NoMemory),
        };
        if k >= self.last.len() {
            return Err(NoMemory);
        }
        let was = found(self.hold, told.at, self.last[k]);
        let new = join(&mut self.begun, &mut self.repeated, self.side, told, was)?;
        self.last[k] = Some(new);
        Ok(())
    }

    /// Keeps a fragment that was received, in the arrival with this number. `NoMemory` is answered also for a fragment of an endpoint that
    /// the unit has not, or at a time that a unit is not given; nothing changed then.
    pub fn take(&mut self, number: u32, heard: &FragmentHeard) -> Result<(), NoMemory>
        ensures ok { OnOk result ((side : SpecSide) (hold : ℤ) (xs : List NumberedFragment) (x : NumberedFragment) → Comes hold xs number heard.now x
            → AreRecordsOf side hold xs self.old → AreRecordsOf side hold (xs ++ x ∷ []) self.new) }
        ensures err { OnErr result ((side : SpecSide) (hold : ℤ) (xs : List NumberedFragment) → AreRecordsOf side hold xs self.old → AreRecordsOf side hold xs self.new) }
    {
        if is_time(heard.at) {
            self.put(&told(self.side, number, heard))
        } else {
            Err(NoMemory)
        }
    }

    /// The messages that were received under a used sequence id, in the order in which they were received.
    pub fn repeated(&self) -> &[RepeatedRecord]
        ensures { (side : SpecSide) (hold : ℤ) (xs : List NumberedFragment) → AreRecordsOf side hold xs self.now → result.now ≡ repeated_after side hold [] xs }
    {
        self.repeated.as_slice()
    }

    /// The messages that never became complete, in the order in which their first fragments were received.
    pub fn unfinished(&self, alloc: Global) -> Result<Vec<BeginningRecord>, NoMemory>
        ensures { IfOk result (λ v. (side : SpecSide) (hold : ℤ) (xs : List NumberedFragment) → AreRecordsOf side hold xs self.now → v.items ≡ beginnings_after side hold [] xs) }
    {
        unfinished_of(alloc, self.begun.as_slice())
    }
}
