// What becomes of frames that are sent: how many copies of each arrive, and when.
ghost use Rattle.std.specs.Prelude.{◌≡◌, ◌<◌};
ghost use Rattle.fh_document.specs.Delivered.{way_number, class_number, number_of};

use crate::frame_numbers::{is_marked, mark, reach};
use air_source::Side;
use arrayvec::ArrayVec;
use fh_base::{List, NoMemory};
use std::alloc::Global;
use std::marker::Model;
use thiserror::Error;

/// The classes of frames, each counted for itself on each way.
#[derive(Clone, Copy, Debug, PartialEq, Eq)]
pub enum TrafficClass {
    /// Frames of the C-plane.
    C,
    /// Frames of the U-plane.
    U,
    /// Frames of delay measurement.
    M,
}

/// Eight copies are there.
#[derive(Clone, Copy, Debug, PartialEq, Eq, Error)]
#[error("eight copies are there")]
pub struct ListFull;

/// How long each copy of a frame is on its way, in nanoseconds: at most eight times. Contracts see them as a list.
#[derive(Drop)]
pub struct Copies {
    /// The times; what is after the last of them is none.
    times: [u32; 8],
    /// How many times there are.
    count: u8,
}

impl Model for Copies {
    ghost use Rattle.std.specs.Prelude.{◌≡◌, ◌≤◌, ℤ, pos, List as Items, length, map, take};

    ghost Value = { Items ℤ };

    ghost view = { λ c. map pos (take c.count c.times) };

    ghost invariant = { λ c. (c.count ≤ 8) × (length c.times ≡ 8) };
}

impl Copies {
    ghost use Rattle.std.specs.Prelude.{◌↔◌, pos, [], ◌∷◌, ◌++◌, length, IsErr, OnOk, OnErr};

    /// No copy: the frame is lost.
    pub fn new() -> Copies
        ensures { result ≡ [] }
    {
        Copies {
            times: [0; 8],
            count: 0,
        }
    }

    /// Appends a copy. An error exactly where eight are there, and nothing changes then.
    pub fn push(&mut self, ns: u32) -> Result<(), ListFull>
        ensures full { IsErr result ↔ (length self.old ≡ 8) }
        ensures ok { OnOk result (self.new ≡ self.old ++ pos ns ∷ []) }
        ensures err { OnErr result (self.new ≡ self.old) }
    {
        let count = usize::from(self.count);
        if count >= self.times.len() {
            return Err(ListFull);
        }
        self.times[count] = ns;
        self.count += 1;
        Ok(())
    }

    /// The same times.
    pub fn copied(&self) -> Copies
        ensures { result ≡ self.now }
    {
        Copies {
            times: self.times,
            count: self.count,
        }
    }

    /// The times, in the order in which they were appended.
    pub fn times(&self) -> ArrayVec<i64, 8>
        ensures { result.items ≡ self.now }
    {
        let mut times = ArrayVec::new();
        for ns in &self.times[..usize::from(self.count)] {
            times.push(i64::from(*ns));
        }
        times
    }
}

/// What becomes of one frame that is sent.
#[derive(Drop)]
pub struct Delivery {
    /// The unit that it is sent to.
    pub side: Side,
    pub class: TrafficClass,
    /// Which of its class on its way it is, from 1 to 9,999,999 in the order in which they are sent.
    pub k: u32,
    /// From 0 to 3,000,000,000 ns each; of delay measurement at least 1 ns.
    pub copies: Copies,
}

fn way_number(side: Side) -> u64
    ensures way { result ≡ way_number side }
    ensures small { result < 2 }
{
    match side {
        Side::Ru => 0,
        Side::Du => 1,
    }
}

fn class_number(class: TrafficClass) -> u64
    ensures class { result ≡ class_number class }
    ensures small { result < 3 }
{
    match class {
        TrafficClass::C => 0,
        TrafficClass::U => 1,
        TrafficClass::M => 2,
    }
}

/// A number of its own for each frame: of the `k`-th of its class that is sent to a unit.
pub fn frame_number(side: Side, class: TrafficClass, k: u32) -> u64
    ensures { result ≡ number_of side class k }
{
    6 * u64::from(k) + (3 * way_number(side) + class_number(class))
}

/// Deliveries in the order of their lines, and the set of the numbers of their frames, so that a twin is found at once. Contracts see
/// the deliveries as a list.
#[derive(Drop)]
pub(crate) struct Deliveries {
    items: List<Delivery>,
    numbers: Vec<u64>,
}

impl Model for Deliveries {
    ghost use Rattle.std.specs.Prelude.{List as Items};
    ghost use Rattle.fh_document.specs.declared.delivered.Delivery.{Delivery};
    ghost use Rattle.fh_document.specs.FrameNumbers.{AreNumbers};

    ghost Value = { Items Delivery };

    ghost view = { λ d. d.items };

    ghost invariant = { λ d. AreNumbers d.numbers.items d.items };
}

impl Deliveries {
    ghost use Rattle.std.specs.Prelude.{true, false, [], ◌∷◌, ◌++◌, length, not, IfOk, OnOk, if◌then◌else◌};
    ghost use Rattle.fh_document.specs.Delivered.{has_like};

    /// No deliveries.
    pub(crate) fn new(alloc: Global) -> Deliveries
        ensures { result ≡ [] }
    {
        Deliveries {
            items: List::new(alloc),
            numbers: Vec::new(alloc),
        }
    }

    /// How many there are.
    pub(crate) fn len(&self) -> usize
        ensures { result ≡ length self.now }
    {
        self.items.len()
    }

    /// Appends a delivery where none of its frame is there, and answers whether that is so.
    pub(crate) fn add(&mut self, delivery: Delivery) -> Result<bool, NoMemory>
        ensures new { IfOk result (λ new. new ≡ not (has_like delivery self.old)) }
        ensures items { IfOk result (λ new. self.new ≡ (if new then self.old ++ delivery ∷ [] else self.old)) }
    {
        let number = frame_number(delivery.side, delivery.class, delivery.k);
        if is_marked(&self.numbers, number) {
            return Ok(false);
        }
        reach(&mut self.numbers, number)?;
        self.items.push(delivery)?;
        mark(&mut self.numbers, number);
        Ok(true)
    }

    /// The deliveries, in the order of their lines.
    pub(crate) fn into_list(self) -> List<Delivery>
        ensures { result ≡ self }
    {
        let Deliveries { items, numbers: _ } = self;
        items
    }
}
