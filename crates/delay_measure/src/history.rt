// The last results of measurements.
ghost use Rattle.std.specs.Prelude.{◌≡◌, ℕ, ℤ, ◌+◌, ◌<◌, ◌≤◌, List, [], ◌∷◌, ◌++◌, length, IfOk, MatchOption, min};
ghost use Rattle.circular_buffer.specs.Buffer.{Buffer, buffer_code, buffer, keep_last};
ghost use Rattle.delay_measure.specs.Past.{Keeps, IsLeast, IsGreatest};

use circular_buffer::HeapCircularBuffer;
use fh_base::NoMemory;
use std::alloc::Global;
use std::marker::Model;

/// The last results of measurements, in units of 2^-16 ns. Contracts see them as a buffer: its items, the oldest
/// first, and how many it can hold.
#[derive(Drop)]
pub struct History {
    ring: HeapCircularBuffer<i128>,
}

impl Model for History {
    ghost use Rattle.std.specs.Prelude.{ℤ};
    ghost use Rattle.std.specs.Coded.{coded_ℤ};
    ghost use Rattle.circular_buffer.specs.Buffer.{Buffer, buffer_code};

    ghost Value = { Buffer ℤ };

    ghost coded = { buffer_code coded_ℤ };

    ghost view = { λ h. h.ring };
}

impl History {
    /// An empty history of the last `n` results, from 1 to 65,536, with all memory that it will need.
    pub fn make(alloc: Global, n: usize) -> Result<History, NoMemory>
        requires some { 1 ≤ n }
        requires few { n ≤ 65536 }
        ensures { IfOk result (λ h. Keeps h n []) }
    {
        match HeapCircularBuffer::with_capacity(alloc, n) {
            Ok(ring) => Ok(History { ring }),
            Err(_) => Err(NoMemory),
        }
    }

    /// Adds a result. Where `n` are kept, the oldest of them is dropped.
    pub fn push(&mut self, v: i128)
        ensures kept { (n : ℕ) (pushes : List ℤ) → Keeps self.old n pushes → Keeps self.new n (pushes ++ v ∷ []) }
        ensures now { self.new ≡ buffer (keep_last self.old.capacity (self.old.items ++ v ∷ [])) self.old.capacity }
    {
        self.ring.push_back(v);
    }

    /// How many results are kept: those pushed, or `n` where more were pushed.
    pub fn len(&self) -> usize
        ensures now { result ≡ length self.now.items }
        ensures pushed { (n : ℕ) (pushes : List ℤ) → Keeps self.now n pushes → result ≡ min n (length pushes) }
    {
        self.ring.len()
    }

    /// The least of the last `n` results. None exactly where nothing was pushed.
    pub fn least(&self) -> Option<i128>
        ensures now { MatchOption result (self.now.items ≡ []) (IsLeast self.now.items) }
        ensures pushed { (n : ℕ) (pushes : List ℤ) → Keeps self.now n pushes
            → MatchOption result (pushes ≡ []) (IsLeast (keep_last n pushes)) }
    {
        self.ring.iter().copied().min()
    }

    /// The greatest of the last `n` results. None exactly where nothing was pushed.
    pub fn greatest(&self) -> Option<i128>
        ensures now { MatchOption result (self.now.items ≡ []) (IsGreatest self.now.items) }
        ensures pushed { (n : ℕ) (pushes : List ℤ) → Keeps self.now n pushes
            → MatchOption result (pushes ≡ []) (IsGreatest (keep_last n pushes)) }
    {
        self.ring.iter().copied().max()
    }
}
