// The ids of the endpoints, in the order in which they were added.
ghost use Rattle.std.specs.Prelude.{◌≡◌, ℕ, ◌<◌, ◌≤◌, ◌↔◌, ◌==◌, List, [], ◌∷◌, ◌++◌, length, Contains, IsSome, IfSome, OnOk, OnErr, slice_index};
ghost use Rattle.eaxc_map.specs.Endpoints.{AppearOnce, index_of};

use arrayvec::ArrayVec;
use std::marker::Model;
use thiserror::Error;

/// Why an id was not added.
#[derive(Clone, Copy, Debug, PartialEq, Eq, Error)]
pub enum AddFault {
    /// The id is there already.
    #[error("the id is there already")]
    Twice,
    /// Sixteen ids are there.
    #[error("sixteen ids are there")]
    Full,
}

/// At most sixteen ids, each once. Contracts see them as a list, in the order in which they were added.
#[derive(Drop)]
pub struct Endpoints {
    ids: ArrayVec<u16, 16>,
}

impl Model for Endpoints {
    ghost Value = { List ℕ };

    ghost view = { λ e. e.ids.items };

    ghost invariant = { λ e. AppearOnce e.ids.items };
}

impl Endpoints {
    ghost use Rattle.eaxc_map.specs.Added.{added};

    /// No ids.
    pub fn new() -> Endpoints
        ensures { result ≡ [] }
    {
        Endpoints {
            ids: ArrayVec::new(),
        }
    }

    /// Adds an id, and answers its index: how many were added before it.
    ///
    /// `Twice` exactly where the id is there, else `Full` exactly where 16 ids are there. After an
    /// error the list is as before.
    pub fn add(&mut self, id: u16) -> Result<usize, AddFault>
        ensures answer { result ≡ added self.old id }
        ensures ok { OnOk result (self.new ≡ self.old ++ id ∷ []) }
        ensures err { OnErr result (self.new ≡ self.old) }
    {
        if self.find(id).is_some() {
            return Err(AddFault::Twice);
        }
        if self.ids.is_full() {
            return Err(AddFault::Full);
        }
        let index = self.ids.len();
        self.ids.push(id);
        Ok(index)
    }

    /// The index at which an id was added. None exactly where it is not there.
    pub fn find(&self, id: u16) -> Option<usize>
        ensures index { result ≡ index_of self.now id }
        ensures there { IsSome result ↔ Contains self.now id }
        ensures at { (k : ℕ) → k < length self.now → slice_index self.now k ≡ id → result ≡ Some k }
        ensures below { IfSome result (λ k. (k < length self.now) × (k < 16)) }
    {
        self.ids.as_slice().iter().position(|x| *x == id)
    }
}
