// An air that counts the cells.
use air_source::{Air, AirCell, AirFault, Side};
use fault_counters::Counter;
use fh_base::Ticks;
use std::io;

/// How many cells an air heard, how many of them without samples, and the sum of a sample of each.
#[derive(Clone, Copy)]
pub struct Tally {
    pub cells: u64,
    pub missing: u64,
    pub sum: u64,
}

impl Tally {
    /// Of nothing heard.
    pub fn new() -> Tally {
        Tally {
            cells: 0,
            missing: 0,
            sum: 0,
        }
    }
}

/// Prints what an air heard in so many slots.
pub fn print(rt: &impl Print, slots: u16, heard: Option<Tally>) -> io::Result<()> {
    match heard {
        Some(tally) => {
            println!(rt;
                "{slots} slots: {} cells, {} missing, sum {}",
                tally.cells, tally.missing, tally.sum
            )
        }
        None => println!(rt; "no run"),
    }
}

impl Air for Tally {
    ghost faults = { λ _. 0 };

    ghost grew = { λ _ _ _. Unit {0} };

    ghost stopped = { λ _ _ _ _. Unit {0} };

    ghost same = { λ _ _. Unit {0} };

    ghost grew_none = { λ _. tt };

    ghost grew_more = { λ _ _ _ _ _ _ _. tt };

    ghost same_none = { λ _. tt };

    ghost same_more = { λ _ _ _ _ _. tt };

    fn cell(&mut self, c: &AirCell) -> Result<(), AirFault> {
        self.cells = self.cells.wrapping_add(1);
        match &c.block {
            Some(block) => {
                let sample = block[(c.prb % 12) as usize];
                self.sum = self.sum.wrapping_add((sample.i as i64).cast_unsigned());
            }
            None => self.missing = self.missing.wrapping_add(1),
        }
        Ok(())
    }

    fn delay(&mut self, _at: Ticks, _side: Side, _id: u8, _value: i128) -> Result<(), AirFault> {
        Ok(())
    }

    fn arrival(&mut self, _side: Side, _at: Ticks, _frame: &[u8]) -> Result<(), AirFault> {
        Ok(())
    }

    fn count(&mut self, _side: Side, _counter: Counter, _value: u64) -> Result<(), AirFault> {
        Ok(())
    }
}
