// The last frame, whose lines are told at the next event.
ghost use Rattle.std.specs.Prelude.{◌≡◌, ℤ, List, [], ◌∷◌, Some, None, false, length, All, IfOk, OnOk};
ghost use Rattle.std.specs.List.{AllByRecursion};
ghost use Rattle.ecpri_frames.specs.Messages.{pdu};
ghost use Rattle.explain_heard.specs.Heard.{all_heard};
ghost use Rattle.explain_heard.specs.Judged.{all_judged};
ghost use Rattle.explain_units.specs.Fit.{AreFit, IsFit};
ghost use Rattle.unit_memory.specs.Control.{has_delay};
ghost use Rattle.unit_memory.specs.Memory.{arrival_at};
ghost use Rattle.unit_laws.specs.Sound.{IsSoundJudgement};
ghost use Rattle.unit_model.specs.Judgements.{judgements};
ghost use Rattle.unit_model.specs.Standing.{History, arrived, at_clock};
ghost use Rattle.unit_model.specs.declared.allocations.Allocation.{Allocation};
ghost use Rattle.window_config.specs.Configs.{IsConfig};
ghost use Rattle.window_config.specs.declared.config.Config.{Config as SpecConfig};

use crate::windows::Windows;
use air_source::Side;
use explain_heard::{Hearing, Judged, judge_all};
use explain_units::FrameHeard;
use fh_base::{NoMemory, Ticks};
use std::alloc::Global;
use std::marker::Model;
use unit_memory::{Arrived, TakesFrames};
use window_config::Config;

// Hands a frame to its unit, and hears what that judges of it in place of what was heard before.
fn hear_frame<U: TakesFrames>(
    hearing: &mut Hearing,
    side: Side,
    at: Ticks,
    bytes: &[u8],
    unit: &mut U,
) -> Arrived
    requires side { side ≡ U.side }
    requires unit { (c : SpecConfig) × (planned : List Allocation) × (h : History) × U.may_take unit.old c planned at.0 h }
    ensures endpoints { hearing.new.endpoints.items ≡ hearing.old.endpoints.items }
    ensures heard { (c : SpecConfig) (planned : List Allocation) (h : History) → U.may_take unit.old c planned at.0 h → hearing.new.wanting ≡ false
        → hearing.new.kept.items ≡ all_heard side hearing.old.endpoints.items (judgements side c h.arrivals (arrival_at at.0 bytes.now)) }
    ensures fit { hearing.new.wanting ≡ false → AreFit hearing.new.kept.items }
    ensures config { (c : SpecConfig) (planned : List Allocation) (h : History) → U.may_take unit.old c planned at.0 h → IsConfig c }
    ensures sound { (c : SpecConfig) (planned : List Allocation) (h : History) → U.may_take unit.old c planned at.0 h
        → All (IsSoundJudgement c.endpoints) (judgements side c h.arrivals (arrival_at at.0 bytes.now)) }
    ensures took { (c : SpecConfig) (planned : List Allocation) (h : History) → U.may_take unit.old c planned at.0 h
        → U.may_take unit.new c planned at.0 (arrived (at_clock h at.0) bytes.now) }
    ensures refusal { result.delivered.refusal ≡ (pdu bytes.now).refusal }
    ensures delay { result.delay ≡ has_delay bytes.now }
{
    hearing.side = side;
    hearing.clear();
    unit.take_told(hearing, at, bytes)
}

/// The last frame, until its lines are told, what its unit heard of it, and what is judged of that. Where memory was refused to the one
/// that hears, it is wanting from then on.
#[derive(Drop)]
pub(crate) struct LastFrame {
    frame: Option<FrameHeard>,
    hearing: Hearing,
    judged: Vec<Judged>,
    windows: Windows,
}

impl Model for LastFrame {
    ghost use Rattle.std.specs.Prelude.{◌≡◌, false};
    ghost use Rattle.explain_air.specs.LastFrames.{LastHeard};
    ghost use Rattle.explain_units.specs.Fit.{AreFit};

    ghost Value = { LastHeard };

    ghost view = { λ l. record { frame = l.frame; endpoints = l.hearing.endpoints.items; delays = l.windows.delays; heard = l.hearing.kept.items; wanting = l.hearing.wanting; judged = l.judged.items } };

    ghost invariant = { λ l. l.hearing.wanting ≡ false → AreFit l.hearing.kept.items };
}

impl LastFrame {
    ghost use Rattle.explain_air.specs.LastFrames.{with_judged, with_none};

    /// No frame.
    pub(crate) fn make(alloc: Global, config: &Config) -> Result<LastFrame, NoMemory>
        requires { IsConfig config.now }
        ensures frame { IfOk result (λ l. l.frame ≡ None) }
        ensures endpoints { IfOk result (λ l. l.endpoints ≡ config.now.endpoints) }
        ensures delays { IfOk result (λ l. l.delays ≡ config.now.delays) }
    {
        let hearing = Hearing::make(alloc, Side::Ru, config)?;
        Ok(LastFrame {
            frame: None,
            hearing,
            judged: Vec::new(alloc),
            windows: Windows::of(config),
        })
    }

    /// Hands a frame, the arrival with this number, to its unit, and keeps what that judges of it. Tells whether one of its whole
    /// messages is of delay measurement.
    pub(crate) fn arrive<U: TakesFrames>(
        &mut self,
        number: u32,
        side: Side,
        at: Ticks,
        bytes: &[u8],
        unit: &mut U,
    ) -> bool
        requires side { side ≡ U.side }
        requires unit { (c : SpecConfig) × (planned : List Allocation) × (h : History) × U.may_take unit.old c planned at.0 h }
        ensures frame { self.new.frame ≡ Some (record { number = number; side = side; at = at; bytes = length bytes.now; refusal = (pdu bytes.now).refusal }) }
        ensures endpoints { self.new.endpoints ≡ self.old.endpoints }
        ensures delays { self.new.delays ≡ self.old.delays }
        ensures heard { (c : SpecConfig) (planned : List Allocation) (h : History) → U.may_take unit.old c planned at.0 h → self.new.wanting ≡ false
            → self.new.heard ≡ all_heard side self.old.endpoints (judgements side c h.arrivals (arrival_at at.0 bytes.now)) }
        ensures config { (c : SpecConfig) (planned : List Allocation) (h : History) → U.may_take unit.old c planned at.0 h → IsConfig c }
        ensures sound { (c : SpecConfig) (planned : List Allocation) (h : History) → U.may_take unit.old c planned at.0 h
            → All (IsSoundJudgement c.endpoints) (judgements side c h.arrivals (arrival_at at.0 bytes.now)) }
        ensures took { (c : SpecConfig) (planned : List Allocation) (h : History) → U.may_take unit.old c planned at.0 h
            → U.may_take unit.new c planned at.0 (arrived (at_clock h at.0) bytes.now) }
        ensures delay { result ≡ has_delay bytes.now }
    {
        let taken = hear_frame(&mut self.hearing, side, at, bytes, unit);
        self.frame = Some(FrameHeard {
            number,
            side,
            at,
            bytes: bytes.len(),
            refusal: taken.delivered.refusal,
        });
        taken.delay
    }

    /// The frame whose lines are not told yet, if there is one: from now on there is none.
    pub(crate) fn take(&mut self) -> Option<FrameHeard>
        ensures frame { result ≡ self.old.frame }
        ensures rest { self.new ≡ with_none self.old }
    {
        self.frame.take()
    }

    /// Judges what its unit heard of it. `NoMemory` where memory is or was refused.
    pub(crate) fn judge(&mut self, side: Side) -> Result<(), NoMemory>
        ensures last { OnOk result (self.new ≡ with_judged self.old (all_judged side self.old.delays self.old.heard)) }
        ensures fit { OnOk result (AllByRecursion IsFit self.new.judged) }
        ensures fine { OnOk result (self.old.wanting ≡ false) }
    {
        if self.hearing.wanting {
            return Err(NoMemory);
        }
        let windows = &self.windows;
        judge_all(
            side,
            &windows.delays,
            self.hearing.kept.as_slice(),
            &mut self.judged,
        )
    }

    /// What was judged last.
    pub(crate) fn judged(&self) -> &[Judged]
        ensures { result.now ≡ self.now.judged }
    {
        self.judged.as_slice()
    }
}
