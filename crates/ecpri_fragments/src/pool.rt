// The places of messages that are in the making, and which id has which.
ghost use Rattle.std.specs.Prelude.{◌≡◌, ℕ, ◌+◌, ◌<◌, ◌≤◌, vec_len, vec_capacity};
ghost use Rattle.ecpri_fragments.specs.Numbers.{AreOnce, how_many};

use crate::place::Place;
use fh_base::NoMemory;
use std::alloc::Global;

/// A place for each id, in memory that is taken once. They are handed out in order, and those that were given back first.
#[derive(Drop)]
pub(crate) struct Pool {
    // of each id, where it has a place
    pub(crate) numbers: Vec<Option<u16>>,
    pub(crate) places: Vec<Place>,
    // which were given back
    free: Vec<u16>,
    ghost few: { vec_len numbers ≤ 4096 },
    ghost within: { vec_len places ≤ vec_len numbers },
    ghost room: { vec_len numbers ≤ vec_capacity places },
    ghost room_free: { vec_len numbers ≤ vec_capacity free },
    ghost all: { how_many numbers.items + vec_len free ≡ vec_len places },
    ghost once: { AreOnce numbers.items free.items (vec_len places) },
}

impl Pool {
    ghost use Rattle.std.specs.Prelude.{Some, None, [], IfOk, Option, slice_get, slice_set};
    ghost use Rattle.ecpri_fragments.specs.Pools.{HandsOut, Opens};

    /// Takes all memory, for so many ids. None has a place.
    pub(crate) fn make(alloc: Global, ids: usize) -> Result<Pool, NoMemory>
        requires { ids ≤ 4096 }
        ensures len { IfOk result (λ p. vec_len p.numbers ≡ ids) }
        ensures none { IfOk result (λ p. (i : ℕ) (n : Option ℕ) → slice_get p.numbers.items i ≡ Some n → n ≡ None) }
    {
        let numbers = vec![in alloc; None; ids]?;
        let places = Vec::with_capacity(alloc, ids)?;
        let free = Vec::with_capacity(alloc, ids)?;
        Ok(Pool {
            numbers,
            places,
            free,
        })
    }

    /// Hands out a place that none had, where none was given back.
    #[inline(never)]
    fn hand_out_new(&mut self, id: usize) -> usize
        requires id { slice_get self.old.numbers.items id ≡ Some None }
        requires none { vec_len self.old.free ≡ 0 }
        ensures { HandsOut self.old id result self.new }
    {
        let number = self.places.len();
        let pushed = self.places.push(Place::new()).is_ok();
        prove!(pushed);
        self.numbers[id] = Some(number as u16);
        number
    }

    /// Hands out a place in which nothing is stored, to an id that has none.
    pub(crate) fn hand_out(&mut self, id: usize) -> usize
        requires { slice_get self.old.numbers.items id ≡ Some None }
        ensures { HandsOut self.old id result self.new }
    {
        match self.free.pop() {
            Some(number) => {
                self.places[number as usize].leave();
                self.numbers[id] = Some(number);
                number as usize
            }
            None => self.hand_out_new(id),
        }
    }

    /// The number of the place of an id, which it has from now on.
    pub(crate) fn place_of(&mut self, id: usize) -> usize
        requires { id < vec_len self.old.numbers }
        ensures { Opens self.old id result self.new }
    {
        match self.numbers[id] {
            Some(number) => number as usize,
            None => self.hand_out(id),
        }
    }

    /// Gives back the place of an id.
    pub(crate) fn give_back(&mut self, id: usize, number: u16)
        requires { slice_get self.old.numbers.items id ≡ Some (Some number) }
        ensures numbers { self.new.numbers.items ≡ slice_set self.old.numbers.items id None }
        ensures places { self.new.places.items ≡ self.old.places.items }
        ensures len { vec_len self.new.numbers ≡ vec_len self.old.numbers }
    {
        self.numbers[id] = None;
        let kept = self.free.push(number).is_ok();
        prove!(kept);
    }
}
