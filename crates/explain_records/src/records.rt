// Records in the order in which they are made, and in the order of their keys.
ghost use Rattle.std.specs.Prelude.{◌≡◌, ◌++◌, [], ◌∷◌, length, IfOk, OnOk, OnErr};
ghost use Rattle.explain_records.specs.Keys.{of_symbol};
ghost use Rattle.explain_records.specs.Order.{AreInOrder, IsEndOf, IsFirstFrom, is_below, is_within};
ghost use Rattle.explain_model.specs.declared.keys.SymbolKey.{SymbolKey as SpecKey};

use crate::keys::{Keyed, OrderKey, order_of};
use explain_model::SymbolKey;
use fh_base::NoMemory;
use std::alloc::Global;
use std::marker::Model;

/// Records in the order in which they are made. Contracts see them as the list of them.
#[derive(Drop)]
pub struct SymbolRecords<R: Keyed + Drop> {
    records: Vec<R>,
}

impl<R: Keyed + Drop> Model for SymbolRecords<R> {
    ghost use Rattle.std.specs.Prelude.{List};

    ghost Value = { List R };

    ghost view = { λ s. s.records.items };
}

impl<R: Keyed + Drop> SymbolRecords<R> {
    /// No records. This takes no memory; later growth takes it from `alloc`.
    pub fn new(alloc: Global) -> Self
        ensures { result ≡ [] }
    {
        SymbolRecords {
            records: Vec::new(alloc),
        }
    }

    /// These records, in their order.
    pub fn of(records: Vec<R>) -> Self
        ensures { result ≡ records.items }
    {
        SymbolRecords { records }
    }

    /// Appends a record. After `NoMemory` the records are as before.
    pub fn push(&mut self, item: R) -> Result<(), NoMemory>
        ensures ok { OnOk result (self.new ≡ self.old ++ item ∷ []) }
        ensures err { OnErr result (self.new ≡ self.old) }
    {
        self.records.push(item)?;
        Ok(())
    }

    /// All records, in the order in which they were appended.
    pub fn as_slice(&self) -> &[R]
        ensures { result.now ≡ self.now }
    {
        self.records.as_slice()
    }

    /// Sorts the records by their keys; those of one key stay in their order. `NoMemory` is answered for want of memory alone.
    pub fn order(mut self) -> Result<OrderedRecords<R>, NoMemory>
        ensures { IfOk result (λ ordered. (key : SpecKey) → of_symbol R.key_of key ordered ≡ of_symbol R.key_of key self) }
    {
        sort_by_order(&mut self.records)?;
        Ok(OrderedRecords {
            records: self.records,
        })
    }
}

/// Sorts records by their keys; those of one key stay in their order.
fn sort_by_order<R: Keyed + Drop>(records: &mut Vec<R>) -> Result<(), NoMemory>
    ensures order { OnOk result (AreInOrder R.key_of records.new.items) }
    ensures same { (key : SpecKey) → of_symbol R.key_of key records.new.items ≡ of_symbol R.key_of key records.old.items }
{
    records.sort_by_key(|item| order_of(item.symbol_key()))?;
    Ok(())
}

/// Records in the order of their keys. Contracts see them as the list of them.
#[derive(Drop)]
pub struct OrderedRecords<R: Keyed + Drop> {
    records: Vec<R>,
}

impl<R: Keyed + Drop> Model for OrderedRecords<R> {
    ghost use Rattle.std.specs.Prelude.{List};
    ghost use Rattle.explain_records.specs.Order.{AreInOrder};

    ghost Value = { List R };

    ghost view = { λ s. s.records.items };

    ghost invariant = { λ s. AreInOrder R.key_of s.records.items };
}

impl<R: Keyed + Drop> OrderedRecords<R> {
    /// The records of a key, in the order in which they were appended. Looking them up takes a time that grows with the logarithm of
    /// the number of records.
    pub fn of_symbol(&self, key: SymbolKey) -> &[R]
        ensures { result.now ≡ of_symbol R.key_of key self.now }
    {
        let wanted = order_of(key);
        let records = self.records.as_slice();
        let first = first_from(records, wanted);
        let end = end_of(records, wanted);
        &records[first..end]
    }

    /// All records, in the order of their keys.
    pub fn as_slice(&self) -> &[R]
        ensures all { result.now ≡ self.now }
        ensures order { AreInOrder R.key_of result.now }
    {
        self.records.as_slice()
    }
}

/// Whether the key of a record precedes one.
fn is_below<R: Keyed + Drop>(item: &R, wanted: OrderKey) -> bool
    ensures { result ≡ is_below R.key_of wanted item.now }
{
    order_of(item.symbol_key()) < wanted
}

/// Whether the key of a record is no later than one.
fn is_within<R: Keyed + Drop>(item: &R, wanted: OrderKey) -> bool
    ensures { result ≡ is_within R.key_of wanted item.now }
{
    order_of(item.symbol_key()) <= wanted
}

/// How many records have keys before one.
fn first_from<R: Keyed + Drop>(records: &[R], wanted: OrderKey) -> usize
    requires { AreInOrder R.key_of records.now }
    ensures { IsFirstFrom R.key_of wanted records.now result }
{
    records.partition_point(|item| is_below(item, wanted))
}

/// How many records have keys before one, or this one.
fn end_of<R: Keyed + Drop>(records: &[R], wanted: OrderKey) -> usize
    requires { AreInOrder R.key_of records.now }
    ensures { IsEndOf R.key_of wanted records.now result }
{
    records.partition_point(|item| is_within(item, wanted))
}
