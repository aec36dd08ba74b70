// The numbers.
ghost use Rattle.std.specs.Prelude.{◌≡◌, ◌≢◌, ℕ, ◌+◌, List, [], ◌∷◌, ◌<◌, ◌^◌, replicate, length, slice_index};
ghost use Rattle.fault_counters.specs.Counts.{count_of, bumped, once, capped, HasCounted};
ghost use Rattle.fault_counters.specs.Names.{index_of};
ghost use Rattle.fault_counters.specs.declared.kinds.Counter.{Counter};

use crate::Counter;
use std::marker::Model;

/// One number for each counter. Contracts see them as a list, in the counters' order.
#[derive(Drop)]
pub struct Counters {
    counts: [u64; 33],
}

impl Model for Counters {
    ghost Value = { List ℕ };

    ghost view = { λ s. s.counts };
}

impl Counters {
    /// Every counter at 0.
    pub fn new() -> Counters
        ensures zeros { result ≡ replicate 33 0 }
        ensures counted { HasCounted result [] }
    {
        Counters { counts: [0; 33] }
    }

    // one more at a counter
    fn bump(&mut self, c: Counter)
        ensures bumped { self.new ≡ bumped self.old c }
        ensures size { length self.old ≡ 33 }
        ensures fits { (k : ℕ) → slice_index self.old k < 2 ^ 64 }
    {
        let index = c.index();
        self.counts[index] = self.counts[index].saturating_add(1);
    }

    /// Adds 1 to a counter, which stays at the greatest `u64`. All other counters stay.
    pub fn add(&mut self, c: Counter)
        ensures bumped { self.new ≡ bumped self.old c }
        ensures each { (d : Counter) → count_of self.new d ≡ capped (count_of self.old d + once c d) }
        ensures others { (d : Counter) → index_of d ≢ index_of c → count_of self.new d ≡ count_of self.old d }
        ensures counted { (earlier : List Counter) → HasCounted self.old earlier → HasCounted self.new (c ∷ earlier) }
    {
        self.bump(c);
    }

    /// The value of a counter.
    pub fn get(&self, c: Counter) -> u64
        ensures { result ≡ count_of self.now c }
    {
        self.counts[c.index()]
    }
}
