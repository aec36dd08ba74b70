// The records of what both units heard.
ghost use Rattle.std.specs.Prelude.{◌≡◌, ◌++◌, [], ◌∷◌, ℕ, ℤ, List, IfOk, OnOk};
ghost use Rattle.air_source.specs.declared.events.Side.{Side as SpecSide};
ghost use Rattle.explain_heard.specs.Heard.{all_heard};
ghost use Rattle.explain_heard.specs.Judged.{all_judged};
ghost use Rattle.explain_model.specs.Stories.{Story};
ghost use Rattle.explain_model.specs.SilentReasons.{kept_of};
ghost use Rattle.explain_records.specs.Stored.{SameBySymbol};
ghost use Rattle.explain_records.specs.Steps.{FragmentsNext};
ghost use Rattle.unit_model.specs.Judgements.{judgements};
ghost use Rattle.window_config.specs.Configs.{IsConfig};
ghost use Rattle.window_config.specs.declared.config.Config.{Config as SpecConfig};
ghost use Rattle.window_config.specs.declared.endpoints.EndpointConfig.{EndpointConfig as SpecEndpoint};

use crate::fragment_records::FragmentRecords;
use crate::ordered::OrderedKept;
use crate::sections::keep_section;
use crate::store::KeptRecords;
use air_source::Side;
use explain_heard::Judged;
use explain_model::{BeginningRecord, RepeatedRecord};
use fh_base::NoMemory;
use std::alloc::Global;
use window_config::Config;

/// The records of what both units heard, in the order in which it was received.
#[derive(Drop)]
pub struct HeardRecords {
    kept: KeptRecords,
    ru: FragmentRecords,
    du: FragmentRecords,
}

/// Keeps messages that were received under a used sequence id, after the others.
fn keep_repeated(kept: &mut KeptRecords, all: &[RepeatedRecord]) -> Result<(), NoMemory>
    ensures { OnOk result (kept.new ≡ record kept.old { repeated = kept.old.repeated ++ all.now }) }
{
    for r in all {
        kept.repeated(*r)?;
    }
    Ok(())
}

/// Keeps messages that never became complete, after the others.
fn keep_begun(kept: &mut KeptRecords, all: &[BeginningRecord]) -> Result<(), NoMemory>
    ensures { OnOk result (kept.new ≡ record kept.old { begun = kept.old.begun ++ all.now }) }
{
    for r in all {
        kept.begun(*r)?;
    }
    Ok(())
}

/// Keeps a fragment at its unit.
fn keep_fragment(
    ru: &mut FragmentRecords,
    du: &mut FragmentRecords,
    side: Side,
    number: u32,
    judged: &Judged,
) -> Result<(), NoMemory>
    ensures ru { OnOk result (FragmentsNext Side.Ru side number judged.now ru.old ru.new) }
    ensures du { OnOk result (FragmentsNext Side.Du side number judged.now du.old du.new) }
{
    match judged {
        Judged::Fragment(fragment) => match side {
            Side::Ru => ru.take(number, fragment),
            Side::Du => du.take(number, fragment),
        },
        Judged::Message(_) | Judged::Command(_) | Judged::Whole(_) | Judged::Data(_) => Ok(()),
    }
}

impl HeardRecords {
    ghost use Rattle.explain_records.specs.Records.{HaveHeard, SoFar, Takes, unit_arrivals};

    /// Takes the memory for a configuration; later growth takes it from `alloc`. Nothing was heard.
    pub fn make(alloc: Global, config: &Config) -> Result<HeardRecords, NoMemory>
        requires { IsConfig config.now }
        ensures { IfOk result (λ r. HaveHeard config.now [] r) }
    {
        let ru = FragmentRecords::make(alloc, Side::Ru, config)?;
        let du = FragmentRecords::make(alloc, Side::Du, config)?;
        Ok(HeardRecords {
            kept: KeptRecords::new(alloc),
            ru,
            du,
        })
    }

    /// Keeps one thing that was judged.
    fn take(&mut self, side: Side, number: u32, judged: &Judged) -> Result<(), NoMemory>
        ensures { OnOk result (Takes side number judged.now self.old self.new) }
    {
        keep_section(&mut self.kept, side, number, judged)?;
        keep_fragment(&mut self.ru, &mut self.du, side, number, judged)
    }

    /// Keeps what a unit judged of an arrival with this number, in its order: of the frame by what was received at that unit before it.
    /// After `NoMemory` a front part of it is kept.
    pub fn keep(&mut self, side: Side, number: u32, judged: &[Judged]) -> Result<(), NoMemory>
        ensures { OnOk result ((c : SpecConfig) (ss : List Story) (s : Story) → s.side ≡ side → s.number ≡ number
            → s.judged ≡ judgements side c (unit_arrivals side ss) s.arrival → judged.now ≡ all_judged side c.delays (all_heard side c.endpoints s.judged)
            → HaveHeard c ss self.old → HaveHeard c (ss ++ s ∷ []) self.new) }
    {
        for one in judged {
            self.take(side, number, one)?;
        }
        Ok(())
    }

    /// Sorts the records by their symbols. Those that were received under a used sequence id, and those that never became complete, are the
    /// radio unit's and then the distributed unit's. `NoMemory` is answered for want of memory alone.
    pub fn order(self, alloc: Global) -> Result<OrderedKept, NoMemory>
        ensures { IfOk result (λ ordered. (c : SpecConfig) (ss : List Story) → HaveHeard c ss self → SameBySymbol (kept_of c ss) ordered) }
    {
        let mut kept = self.kept;
        keep_repeated(&mut kept, self.ru.repeated())?;
        keep_repeated(&mut kept, self.du.repeated())?;
        let ru = self.ru.unfinished(alloc)?;
        let du = self.du.unfinished(alloc)?;
        keep_begun(&mut kept, ru.as_slice())?;
        keep_begun(&mut kept, du.as_slice())?;
        kept.order()
    }
}
