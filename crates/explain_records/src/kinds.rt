// The records of a replay, and their keys.
ghost use Rattle.std.specs.Prelude.{◌≡◌};
ghost use Rattle.explain_model.specs.Keys.{beginning_key, data_key, header_key, repeated_key, run_key};
ghost use Rattle.explain_records.specs.Keys.{command_symbol, in_slot};

use crate::keys::Keyed;
use air_source::Side;
use explain_model::{
    BeginningRecord, CellRun, CommandRecord, DataRecord, HeaderRecord, RepeatedRecord, SlotKey,
    SymbolKey,
};

/// The key of what is looked up by a slot of the radio unit.
pub fn in_slot(key: SlotKey) -> SymbolKey
    ensures { result ≡ in_slot key }
{
    SymbolKey {
        side: Side::Ru,
        ep: key.ep,
        slot: key.slot,
        symbol: 0,
    }
}

impl Keyed for DataRecord {
    ghost key_of = { data_key };

    fn symbol_key(&self) -> SymbolKey {
        self.key()
    }
}

impl Keyed for CommandRecord {
    ghost key_of = { command_symbol };

    fn symbol_key(&self) -> SymbolKey {
        in_slot(self.key())
    }
}

impl Keyed for HeaderRecord {
    ghost key_of = { header_key };

    fn symbol_key(&self) -> SymbolKey {
        self.key()
    }
}

impl Keyed for RepeatedRecord {
    ghost key_of = { repeated_key };

    fn symbol_key(&self) -> SymbolKey {
        self.key()
    }
}

impl Keyed for BeginningRecord {
    ghost key_of = { beginning_key };

    fn symbol_key(&self) -> SymbolKey {
        self.key()
    }
}

impl Keyed for CellRun {
    ghost key_of = { run_key };

    fn symbol_key(&self) -> SymbolKey {
        self.key()
    }
}
