//! The distributed unit's schedule: a plan that was tested, and the frames that it sends, one after the other.
//!
//! [`Plan::check`] tests the lines of a plan and takes all memory. [`Plan::next_frame`] lends the frames in their order, each written into
//! one room: C-plane commands of the lines, and fragments of the downlink U-plane messages with a source's samples. The plan, its tests and
//! the order of frames are this project's profile; layouts and windows are those of O-RAN.WG4.CUS. Times are ticks of 1/1536 ns.
//!
//! Four things are below it, each in modules of its own:
//!
//! - the test: [`tested`] answers which line of a plan is refused first, and why, as `plan_model` defines it for every list of lines in
//!   their ranges. Lines are judged slot by slot against the claims of the earlier ones, by the ring that the radio unit keeps; the parts
//!   of data messages are sorted once and gone over once;
//! - the parts: a [`TimedPart`] is a line in its first symbol for a command, in each of its symbols for data. [`parts_of`] lists those of a
//!   stream, [`CompleteMessages`] cuts them into messages by the [`Limits`] of the stream, and [`stream_messages`] says when these leave;
//! - the order: a [`Queue`] holds one [`Run`] for each message that has frames left, in a heap that is made with its room ([`queue_of`]).
//!   [`Queue::next`] gives the first frame of all, by time, endpoint, stream, number and subsequence, and puts its message back at the next
//!   one, so it takes no memory and cannot fail. These are the frames that `plan_model` lists tick by tick, by a lemma;
//! - the table: [`Table::make`] makes for a valid plan the queue of all its messages and a table of their parts, and [`Table::message`]
//!   lends the parts of the message of a frame.
#![tactic(auto)]

mod complete;
mod cutting;
mod judging;
mod keeping;
mod kept;
mod limits;
mod open_messages;
mod parts;
mod placing;
mod plans;
mod queue;
mod queues;
mod sorting;
mod streams;
mod tables;
mod testing;
mod touching;
mod turns;
mod walking;
mod writing;

pub use complete::CompleteMessages;
pub use cutting::{Messages, stream_messages};
pub use keeping::planned_lines;
pub use kept::PlacedLine;
pub use limits::Limits;
pub use open_messages::OpenMessage;
pub use parts::{TimedPart, parts_of};
pub use plan_model::PlanWhy;
pub use plans::{Plan, Plane, Sent};
pub use queue::Queue;
pub use queues::queue_of;
pub use tables::Table;
pub use testing::{PlanRefusal, tested};
pub use turns::{Run, Turn};
