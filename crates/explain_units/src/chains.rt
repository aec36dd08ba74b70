// Things of which many are in chains.
ghost use Rattle.std.specs.Prelude.{◌≡◌, ℕ, ◌<◌, ◌≤◌, ◌++◌, [], ◌∷◌, length, IfOk, OnOk, OnErr, slice_get, Some, vec_len};
ghost use Rattle.explain_units.specs.Chains.{chain_at, last_in};

use fh_base::NoMemory;
use std::alloc::Global;
use std::marker::Model;

/// A thing in a chain.
#[derive(Drop)]
pub(crate) struct Link<T: Drop> {
    chain: usize,
    // how many there are up to the one before it in its chain
    before: usize,
    item: T,
}

/// Things in the order in which they were added, each in one of so many chains.
#[derive(Drop)]
pub(crate) struct Chains<T: Drop> {
    links: Vec<Link<T>>,
    // for each chain how many there are up to its last one
    ends: Vec<usize>,
}

impl<T: Drop> Model for Chains<T> {
    ghost use Rattle.std.specs.Prelude.{map, vec_len};
    ghost use Rattle.explain_units.specs.Chains.{AreLinked, InChains};

    ghost Value = { InChains T };

    ghost view = { λ c. record { count = vec_len c.ends; chains = map (λ l. l.chain) c.links.items; items = map (λ l. l.item) c.links.items } };

    ghost invariant = { λ c. AreLinked (map (λ l. l.chain) c.links.items) (map (λ l. l.before) c.links.items) c.ends.items };
}

impl<T: Drop> Chains<T> {
    /// So many chains, and nothing in them.
    #[tactic(auto, using(crate::proofs::LinkLemmas::zeros_more, crate::proofs::LinkLemmas::linked_none))]
    pub(crate) fn make(alloc: Global, count: usize) -> Result<Chains<T>, NoMemory>
        ensures count { IfOk result (λ c. c.count ≡ count) }
        ensures chains { IfOk result (λ c. c.chains ≡ []) }
        ensures items { IfOk result (λ c. c.items ≡ []) }
    {
        let mut ends = Vec::with_capacity(alloc, count)?;
        for _chain in 0..count {
            ends.push(0)?;
        }
        Ok(Chains {
            links: Vec::new(alloc),
            ends,
        })
    }

    /// One more is added, in this chain. After `NoMemory` all is as before.
    #[tactic(auto, using(crate::proofs::LinkLemmas::pushed))]
    pub(crate) fn push(&mut self, chain: usize, item: T) -> Result<(), NoMemory>
        requires { chain < self.old.count }
        ensures count { self.new.count ≡ self.old.count }
        ensures chains { OnOk result (self.new.chains ≡ self.old.chains ++ chain ∷ []) }
        ensures items { OnOk result (self.new.items ≡ self.old.items ++ item ∷ []) }
        ensures err { OnErr result (self.new ≡ self.old) }
    {
        let before = self.ends[chain];
        self.links.push(Link {
            chain,
            before,
            item,
        })?;
        self.ends[chain] = self.links.len();
        Ok(())
    }

    /// How many there are up to the last one of a chain, 0 where it has none.
    pub(crate) fn last(&self, chain: usize) -> usize
        requires { chain < self.now.count }
        ensures { result ≡ last_in self.now.chains chain (length self.now.chains) }
    {
        self.ends[chain]
    }

    /// How many there are up to the one before number `k` in its chain, 0 where it is the first.
    pub(crate) fn before(&self, k: usize) -> usize
        requires { k < length self.now.chains }
        ensures { result ≡ last_in self.now.chains (chain_at self.now.chains k) k }
    {
        self.links[k].before
    }

    /// Number `k`.
    pub(crate) fn item(&self, k: usize) -> &T
        requires { k < length self.now.chains }
        ensures { slice_get self.now.items k ≡ Some result.now }
    {
        &self.links[k].item
    }
}
