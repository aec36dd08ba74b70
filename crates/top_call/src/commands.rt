// The commands over a whole input, a module each.
ghost use Rattle.std.specs.Prelude.{◌≡◌, ◌≤◌, Some, length};
ghost use Rattle.fh_base.specs.declared.source.TheConstants.{INPUT_LIMIT};
ghost use Rattle.command_words.specs.Words.{IsProper};
ghost use Rattle.top_call.specs.Answers.{answer_of, reads};
ghost use Rattle.top_call.specs.Run.{ExplainsFew, Performs};

mod capture;
mod draw;
mod explain;
mod fit;
mod generate;
mod idle;
mod pcap;
mod replay;
mod sent;
mod shared;
mod show;
mod summary;
mod trial;
mod windows;

use crate::status::Status;
use capture::write_capture;
use command_words::Command;
use draw::{write_arrivals, write_grid};
use explain::write_explanation;
use fh_base::Sink;
use fit::write_fit;
use generate::write_document;
use idle::write_idle_spans;
use pcap::{capture_frames, inject_frames};
use replay::write_report;
use sent::write_sent;
use shared::write_shared;
use show::show_capture;
use std::alloc::Global;
use summary::write_summary;
use trial::write_trial;
use windows::write_windows;

/// Whether a command reads its input.
pub(crate) fn reads(command: Command) -> bool
    ensures { result ≡ reads command }
{
    match command {
        Command::Replay
        | Command::Summary
        | Command::Capture
        | Command::Show { .. }
        | Command::Explain { .. }
        | Command::Sent
        | Command::Windows
        | Command::Fit
        | Command::Shared { .. }
        | Command::Idle { .. }
        | Command::DrawGrid { .. }
        | Command::DrawWindows
        | Command::Pcap { .. }
        | Command::PcapCapture { .. } => true,
        Command::Generate { .. } | Command::Trial { .. } => false,
    }
}

/// Does what a command asks for over the whole input.
#[tactic(auto, unfolding(crate::specs::Answers::answer_of))]
pub(crate) fn perform<K: Sink>(alloc: Global, command: Command, bytes: &[u8], out: &mut K) -> Status
    requires proper { IsProper command }
    requires within { length bytes.now ≤ INPUT_LIMIT }
    ensures does { Performs (answer_of command bytes.now) (K.written out.old) (K.written out.new) (K.faults out.old) (K.faults out.new) result }
    ensures few { ExplainsFew (Some command) bytes.now result }
{
    match command {
        Command::Replay => write_report(alloc, bytes, out),
        Command::Summary => write_summary(alloc, bytes, out),
        Command::Capture => write_capture(alloc, bytes, out),
        Command::Show { json } => show_capture(alloc, json, bytes, out),
        Command::Explain { faults } => write_explanation(alloc, faults, bytes, out),
        Command::Sent => write_sent(alloc, bytes, out),
        Command::Windows => write_windows(alloc, bytes, out),
        Command::Fit => write_fit(alloc, bytes, out),
        Command::Generate { seed, slots } => write_document(alloc, seed, slots, out),
        Command::Trial { seed, slots } => write_trial(alloc, seed, slots, out),
        Command::Shared { count, step } => write_shared(alloc, count, step, bytes, out),
        Command::Idle { first, last, min } => {
            write_idle_spans(alloc, first, last, min, bytes, out)
        }
        Command::DrawGrid {
            frame,
            subframe,
            count,
        } => write_grid(alloc, frame, subframe, count, bytes, out),
        Command::DrawWindows => write_arrivals(alloc, bytes, out),
        Command::Pcap { whose, start } => inject_frames(alloc, whose, start, bytes, out),
        Command::PcapCapture { whose, start } => capture_frames(alloc, whose, start, bytes, out),
    }
}
