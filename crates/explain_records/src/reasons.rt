// Why a cell is missing.
ghost use Rattle.std.specs.Prelude.{◌≡◌};
ghost use Rattle.explain_model.specs.SilentReasons.{came_reason, missing_reason, nothing_reason, uplink_elements};
ghost use Rattle.explain_records.specs.Elements.{at_symbol, elements};

use crate::commands::{Asked, accepted_command, command_reason};
use crate::given::{other_reason, untimely_reason};
use crate::headers::{header_reason, repeated_reason, unfinished_reason};
use air_source::Side;
use explain_model::{
    BeginningRecord, CommandRecord, DataRecord, HeaderRecord, Reason, RepeatedRecord, SlotKey,
    SymbolKey,
};

/// The records of one symbol, and the commands of its slot.
#[derive(Clone, Copy)]
pub struct AtSymbol<'a> {
    pub given: &'a [DataRecord],
    pub commanded: &'a [CommandRecord],
    pub headers: &'a [HeaderRecord],
    pub repeated: &'a [RepeatedRecord],
    pub begun: &'a [BeginningRecord],
}

/// All elements of a PRB of a symbol, in the uplink.
fn uplink_elements(key: SymbolKey, prb: u16) -> Asked
    ensures { elements result ≡ uplink_elements key prb }
{
    Asked {
        key: SlotKey {
            ep: key.ep,
            slot: key.slot,
        },
        down: false,
        symbol: key.symbol,
        prb,
        mask: 0xFFF,
    }
}

/// What is known of a message that was received for a PRB of a symbol, by the first rule that holds.
#[tactic(auto, unfolding(explain_model::specs::SilentReasons::came_reason))]
fn came_reason(at: &AtSymbol<'_>, key: SymbolKey, prb: u16) -> Option<Reason>
    ensures { result ≡ came_reason (at_symbol at.now) key prb }
{
    if let Some(reason) = other_reason(at.given, key, prb) {
        return Some(reason);
    }
    if let Some(reason) = untimely_reason(at.given, key, prb) {
        return Some(reason);
    }
    if let Some(reason) = header_reason(at.headers, key) {
        return Some(reason);
    }
    if let Some(reason) = repeated_reason(at.repeated, key) {
        return Some(reason);
    }
    unfinished_reason(at.begun, key)
}

/// Why nothing was received for a PRB of a symbol: at the distributed unit by what became of the command.
fn nothing_reason(at: &AtSymbol<'_>, key: SymbolKey, prb: u16) -> Reason
    ensures { result ≡ nothing_reason (at_symbol at.now) key.side key prb }
{
    match key.side {
        Side::Ru => Reason::NoData { from: None },
        Side::Du => {
            let asked = uplink_elements(key, prb);
            match accepted_command(at.commanded, &asked) {
                Some(r) => Reason::NoData {
                    from: Some(r.number),
                },
                None => command_reason(at.commanded, &asked),
            }
        }
    }
}

/// Why a cell of a PRB of a symbol that has no samples under its section id has none, by the records of the symbol.
#[tactic(auto, unfolding(explain_model::specs::SilentReasons::missing_reason))]
pub fn missing_reason(at: &AtSymbol<'_>, key: SymbolKey, prb: u16) -> Reason
    ensures { result ≡ missing_reason (at_symbol at.now) key prb }
{
    match came_reason(at, key, prb) {
        Some(reason) => reason,
        None => nothing_reason(at, key, prb),
    }
}
