// The records of a replay, in the order of their symbols.
ghost use Rattle.std.specs.Prelude.{◌≡◌, filter};
ghost use Rattle.explain_model.specs.SilentReasons.{of_symbol};
ghost use Rattle.explain_records.specs.Elements.{at_symbol};
ghost use Rattle.explain_model.specs.Keys.{command_key, data_key, same_slot_key, same_symbol};
ghost use Rattle.explain_records.specs.Order.{AreInOrder};

use crate::kinds::in_slot;
use crate::reasons::AtSymbol;
use crate::records::OrderedRecords;
use explain_model::{
    BeginningRecord, CommandRecord, DataRecord, HeaderRecord, RepeatedRecord, SlotKey, SymbolKey,
};
use std::marker::Model;

/// The records of a replay, in the order of their symbols. Contracts see them as the lists of them.
#[derive(Drop)]
pub struct OrderedKept {
    pub(crate) given: OrderedRecords<DataRecord>,
    pub(crate) commanded: OrderedRecords<CommandRecord>,
    pub(crate) headers: OrderedRecords<HeaderRecord>,
    pub(crate) repeated: OrderedRecords<RepeatedRecord>,
    pub(crate) begun: OrderedRecords<BeginningRecord>,
}

impl Model for OrderedKept {
    ghost use Rattle.explain_model.specs.SilentReasons.{Kept};

    ghost Value = { Kept };

    ghost view = { λ k. record { given = k.given; commanded = k.commanded; headers = k.headers; repeated = k.repeated; begun = k.begun } };
}

impl OrderedKept {
    /// All sections of data, in the order of their symbols.
    pub fn given(&self) -> &[DataRecord]
        ensures all { result.now ≡ self.now.given }
        ensures order { AreInOrder data_key result.now }
    {
        self.given.as_slice()
    }

    /// The sections of data of a symbol, in the order in which they were received.
    pub fn given_at(&self, key: SymbolKey) -> &[DataRecord]
        ensures { result.now ≡ filter (λ r. same_symbol (data_key r) key) self.now.given }
    {
        self.given.of_symbol(key)
    }

    /// The sections of commands of a slot, in the order in which they were received.
    pub fn commanded_in(&self, key: SlotKey) -> &[CommandRecord]
        ensures { result.now ≡ filter (λ r. same_slot_key (command_key r) key) self.now.commanded }
    {
        self.commanded.of_symbol(in_slot(key))
    }

    /// The records of a symbol, and the commands of its slot.
    pub fn at_symbol(&self, key: SymbolKey) -> AtSymbol<'_>
        ensures { at_symbol result ≡ of_symbol key self.now }
    {
        AtSymbol {
            given: self.given_at(key),
            commanded: self.commanded_in(SlotKey {
                ep: key.ep,
                slot: key.slot,
            }),
            headers: self.headers.of_symbol(key),
            repeated: self.repeated.of_symbol(key),
            begun: self.begun.of_symbol(key),
        }
    }
}
