//! A plan and the frames that it has still to send.
ghost use Rattle.std.specs.Prelude.{◌≡◌, ◌≤◌, ◌↔◌, All, IfOk, IfSome, IsTrue, List as SpecList, length, map, slice_get};
ghost use Rattle.air_source.specs.Answers.{AnswersBy};
ghost use Rattle.air_source.specs.Kept.{IsKept, closure_of};
ghost use Rattle.air_source.specs.declared.places.RePlace.{RePlace as SpecPlace};
ghost use Rattle.bfp_codec.specs.declared.samples.Wide.{Wide as SpecWide};
ghost use Rattle.window_config.specs.Configs.{IsConfig};
ghost use Rattle.window_config.specs.Plans.{IsPlanLine};
ghost use Rattle.window_config.specs.declared.config.Config.{Config as SpecConfig};
ghost use Rattle.window_config.specs.declared.plan.PlanLine.{PlanLine as SpecLine};
ghost use Rattle.plan_model.specs.Lines.{planned};
ghost use Rattle.plan_model.specs.Sent.{SentFrame, sent};
ghost use Rattle.plan_model.specs.Valid.{IsValid};
ghost use Rattle.window_config.specs.declared.plan.TheConstants.{PLAN_LINES};

use crate::Table;
use crate::keeping::planned_lines;
use crate::queue::Queue;
use crate::testing::{PlanRefusal, tested};
use crate::touching::are_touching;
use crate::writing::write_frame;
use air_source::{RePlace, Samples};
use bfp_codec::Wide;
use fh_base::{List, NoMemory, Slot, Ticks};
use plan_model::{PlannedLine, Stream};
use std::alloc::Global;
use window_config::{Config, PlanLine};

/// The plane of a frame.
#[derive(Clone, Copy, Debug, PartialEq, Eq)]
pub enum Plane {
    /// C-plane: a command.
    C,
    /// U-plane: a fragment of a data message.
    U,
}

impl Plane {
    ghost use Rattle.du_scheduler.specs.Plans.{plane_of};

    /// The plane of a stream's frames.
    fn of(stream: Stream) -> Plane
        ensures { result ≡ plane_of stream }
    {
        match stream {
            Stream::DownCommands | Stream::UpCommands => Plane::C,
            Stream::DownData | Stream::UpData => Plane::U,
        }
    }
}

/// A frame that is sent.
#[derive(Clone, Copy, Debug)]
pub struct Sent<'a> {
    /// When it leaves.
    pub at: Ticks,
    /// Its plane.
    pub plane: Plane,
    /// The place of its endpoint in the configuration.
    pub ep: usize,
    /// The whole frame, from the eCPRI common header on.
    pub bytes: &'a [u8],
}

/// What is said of a frame that was written.
#[derive(Clone, Copy)]
struct Written {
    at: Ticks,
    plane: Plane,
    ep: usize,
    size: usize,
}

/// How many bytes the longest frame has: 9,000 application bytes after the eCPRI headers.
const ROOM: usize = 9008;

/// A plan whose lines were tested, and the frames that it has still to send.
#[derive(Drop)]
pub struct Plan {
    fragment: usize,
    lines: Vec<PlannedLine>,
    table: Table,
    queue: Queue,
    room: Vec<u8>,
}

impl Plan {
    ghost use Rattle.du_scheduler.specs.Queues.{first_time};
    ghost use Rattle.du_scheduler.specs.Runs.{turn_of};
    ghost use Rattle.du_scheduler.specs.Plans.{Checks, GivesSent, HasToSend, IsLent, IsPlan, LeavesPlan, Writes};
    ghost use Rattle.du_scheduler.specs.After.{LeavesAfter};
    ghost use Rattle.schedule_laws.specs.Touched.{Touches};
    ghost use Rattle.std.specs.Borrow.{sem};

    /// The plan of lines that were tested, with all its frames to send.
    fn make(alloc: Global, config: &Config, lines: &List<PlanLine>) -> Result<Plan, NoMemory>
        requires config { IsConfig config.now }
        requires fit { All IsPlanLine lines.now }
        requires valid { IsValid config.now lines.now }
        requires few { length lines.now ≤ PLAN_LINES }
        ensures { IfOk result (HasToSend config.now lines.now (sent config.now (planned config.now.endpoints lines.now))) }
    {
        let planned = planned_lines(alloc, config.endpoints.as_slice(), lines)?;
        let (table, queue) = Table::make(alloc, config, &planned)?;
        let room = vec![in alloc; 0; ROOM]?;
        Ok(Plan {
            fragment: config.fragment,
            lines: planned,
            table,
            queue,
            room,
        })
    }

    /// Tests the lines of a plan and takes all memory for its frames. `At` names the first line that is refused, from 0, with the
    /// first reason for it; `NoMemory` where memory cannot be had.
    pub fn check(
        alloc: Global,
        config: &Config,
        lines: &List<PlanLine>,
    ) -> Result<Plan, PlanRefusal>
        requires config { IsConfig config.now }
        requires fit { All IsPlanLine lines.now }
        requires few { length lines.now ≤ PLAN_LINES }
        ensures { Checks config.now lines.now result }
    {
        tested(alloc, config, lines)?;
        Ok(Plan::make(alloc, config, lines)?)
    }

    /// Writes the next frame into the room.
    fn write_next<F: Fn(RePlace) -> Wide>(&mut self, source: &Samples<F>) -> Option<Written>
        requires kept { IsKept F.pre F.post source.now }
        requires plan { IsPlan self.old }
        ensures size { IfSome result (λ w. w.size ≤ length self.new.room.items) }
        ensures leaves { LeavesPlan self.old self.new result }
        ensures writes { (c : SpecConfig) (lines : SpecList SpecLine) (left : SpecList SentFrame) → HasToSend c lines left self.old
            → (answer : SpecPlace → SpecWide) → AnswersBy (F.post (closure_of source.now)) answer → Writes c answer left result self.new }
    {
        let Some(turn) = self.queue.next() else {
            return None;
        };
        let parts = self.table.message(&turn);
        let size = write_frame(
            &self.lines,
            parts,
            &turn,
            self.fragment,
            source,
            &mut self.room,
        );
        Some(Written {
            at: turn.at,
            plane: Plane::of(turn.stream),
            ep: turn.endpoint as usize,
            size,
        })
    }

    /// The frame that was written.
    fn lent(&self, written: Written) -> Sent<'_>
        requires { written.size ≤ length self.now.room.items }
        ensures { IsLent written self.now result }
    {
        Sent {
            at: written.at,
            plane: written.plane,
            ep: written.ep,
            bytes: &self.room[..written.size],
        }
    }

    /// The next frame in the order of what is sent; None exactly where all were given, and then nothing changes.
    ///
    /// Its bytes are kept in the plan's room until the next call. This takes no memory. The source is asked for the samples of the
    /// PRBs that the frame touches, and for no others.
    pub fn next_frame<F: Fn(RePlace) -> Wide>(&mut self, source: &Samples<F>) -> Option<Sent<'_>>
        requires kept { IsKept F.pre F.post source.now }
        requires plan { IsPlan self.old }
        ensures gives { (c : SpecConfig) (lines : SpecList SpecLine) (left : SpecList SentFrame) → HasToSend c lines left self.old
            → (answer : SpecPlace → SpecWide) → AnswersBy (F.post (closure_of source.now)) answer → GivesSent c answer left result }
        ensures* after { sem 𝓛 (LeavesAfter self.entry result) }
    {
        let Some(written) = self.write_next(source) else {
            return None;
        };
        Some(self.lent(written))
    }

    /// When the next frame leaves; None exactly where all were given.
    pub fn next_time(&self) -> Option<Ticks>
        requires plan { IsPlan self.now }
        ensures { (c : SpecConfig) (lines : SpecList SpecLine) (left : SpecList SentFrame) → HasToSend c lines left self.now → result ≡ first_time (map turn_of left) }
    {
        self.queue.next_time()
    }

    /// The line with this place, from 0, in the list that was tested; None exactly where there are no more.
    pub fn line(&self, k: usize) -> Option<PlanLine>
        requires plan { IsPlan self.now }
        ensures { (c : SpecConfig) (lines : SpecList SpecLine) (left : SpecList SentFrame) → HasToSend c lines left self.now → result ≡ slice_get lines k }
    {
        if k < self.lines.len() {
            Some(self.lines[k].line)
        } else {
            None
        }
    }

    /// Whether a `dl` or an `idle` line of an endpoint, by its place in the configuration, names a cell in a slot.
    pub fn touches(&self, ep: usize, slot: Slot) -> bool
        requires plan { IsPlan self.now }
        ensures { (c : SpecConfig) (lines : SpecList SpecLine) (left : SpecList SentFrame) → HasToSend c lines left self.now → IsTrue result ↔ Touches ep slot (planned c.endpoints lines) }
    {
        are_touching(&self.lines, ep, slot)
    }
}
