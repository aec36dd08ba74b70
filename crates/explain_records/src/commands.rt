// What the commands of a slot say of its elements.
ghost use Rattle.std.specs.Prelude.{◌≡◌, if◌then◌else◌};
ghost use Rattle.unit_model.specs.Claims.{is_from};
ghost use Rattle.explain_model.specs.Commanded.{accepted_command, command_reason, command_reason_by, has_prb, is_accepted, is_accepted_for, is_named_by, is_refused_for, refused_command, share};
ghost use Rattle.explain_records.specs.Nearest.{nearer_of};
ghost use Rattle.explain_records.specs.Elements.{elements};
ghost use Rattle.explain_model.specs.Keys.{same_slot_key};

use explain_model::{CommandRecord, Reason, SlotKey};
use unit_model::{CommandVerdict, is_from, same_slot};

/// Elements of one PRB in one symbol of a slot, in a direction.
#[derive(Clone, Copy, Debug, PartialEq, Eq)]
pub struct Asked {
    /// The slot of an endpoint.
    pub key: SlotKey,
    /// Whether they are of the downlink.
    pub down: bool,
    /// The symbol in the slot, from 0.
    pub symbol: u8,
    /// The PRB.
    pub prb: u16,
    /// The elements, element 0 in the most significant of 12 bits.
    pub mask: u16,
}

/// The bits of all twelve elements.
const ALL: u16 = 0xFFF;

/// Whether two masks have an element in common.
fn share(a: u16, b: u16) -> bool
    ensures { result ≡ share a b }
{
    a & b & ALL != 0
}

/// Whether two slots are the same.
fn same_slot_key(a: SlotKey, b: SlotKey) -> bool
    ensures { result ≡ same_slot_key a b }
{
    a.ep == b.ep && same_slot(&a.slot, &b.slot)
}

/// Whether a command has a PRB: numPrb 0 is all of them.
fn has_prb(r: &CommandRecord, prb: u16) -> bool
    ensures { result ≡ has_prb r.now prb }
{
    r.num_prb == 0 || is_from(r.start_prb, u16::from(r.num_prb), prb)
}

/// Whether a command has a symbol.
fn has_symbol(r: &CommandRecord, symbol: u8) -> bool
    ensures { result ≡ is_from r.now.symbol r.now.num_symbol symbol }
{
    is_from(
        u16::from(r.symbol),
        u16::from(r.num_symbol),
        u16::from(symbol),
    )
}

/// Whether a command names one of some elements.
#[tactic(auto, unfolding(explain_model::specs::Commanded::is_named_by))]
fn is_named_by(asked: &Asked, r: &CommandRecord) -> bool
    ensures { result ≡ is_named_by (elements asked.now) r.now }
{
    same_slot_key(r.key(), asked.key)
        && r.down == asked.down
        && has_symbol(r, asked.symbol)
        && has_prb(r, asked.prb)
        && share(r.mask, asked.mask)
}

/// Whether a command was accepted.
fn is_accepted(verdict: CommandVerdict) -> bool
    ensures { result ≡ is_accepted verdict }
{
    match verdict {
        CommandVerdict::Accepted => true,
        CommandVerdict::Mismatch
        | CommandVerdict::Late
        | CommandVerdict::Early
        | CommandVerdict::Range
        | CommandVerdict::Repeat
        | CommandVerdict::Overlap
        | CommandVerdict::Full => false,
    }
}

/// Whether a command names one of some elements, and was not accepted.
fn is_refused_for(asked: &Asked, r: &CommandRecord) -> bool
    ensures { result ≡ is_refused_for (elements asked.now) r.now }
{
    is_named_by(asked, r) && !is_accepted(r.verdict)
}

/// Whether a command names one of some elements, and was accepted.
fn is_accepted_for(asked: &Asked, r: &CommandRecord) -> bool
    ensures { result ≡ is_accepted_for (elements asked.now) r.now }
{
    is_named_by(asked, r) && is_accepted(r.verdict)
}

/// The first command that names one of some elements and was accepted, if there is one.
pub fn accepted_command(commanded: &[CommandRecord], asked: &Asked) -> Option<CommandRecord>
    ensures { result ≡ accepted_command commanded.now (elements asked.now) }
{
    for r in commanded {
        if is_accepted_for(asked, r) {
            return Some(*r);
        }
    }
    None
}

/// The nearer of two commands to its window; at one distance the first.
fn nearer(first: Option<CommandRecord>, next: CommandRecord) -> CommandRecord
    ensures { result ≡ nearer_of (λ r. r.distance) first next }
{
    match first {
        Some(r) if r.distance <= next.distance => r,
        _ => next,
    }
}

/// Of the commands that name one of some elements and were not accepted the nearest to its window, and of those the first.
fn refused_command(commanded: &[CommandRecord], asked: &Asked) -> Option<CommandRecord>
    ensures { result ≡ refused_command commanded.now (elements asked.now) }
{
    let mut nearest: Option<CommandRecord> = None;
    for r in commanded {
        nearest = nearest_with(nearest, r, asked);
    }
    nearest
}

/// The nearest with a command more, where that names one of some elements and was not accepted.
fn nearest_with(
    nearest: Option<CommandRecord>,
    r: &CommandRecord,
    asked: &Asked,
) -> Option<CommandRecord>
    ensures { result ≡ (if is_refused_for (elements asked.now) r.now then Some (nearer_of (λ s. s.distance) nearest r.now) else nearest) }
{
    if is_refused_for(asked, r) {
        Some(nearer(nearest, *r))
    } else {
        nearest
    }
}

/// The reason of a command with this verdict.
fn command_reason_by(verdict: CommandVerdict, by: u64, from: u32) -> Reason
    ensures { result ≡ command_reason_by verdict by from }
{
    match verdict {
        CommandVerdict::Mismatch => Reason::CommandMismatch { from },
        CommandVerdict::Late => Reason::CommandLate { by, from },
        CommandVerdict::Early => Reason::CommandEarly { by, from },
        CommandVerdict::Range => Reason::CommandRange { from },
        CommandVerdict::Repeat => Reason::CommandRepeat { from },
        CommandVerdict::Overlap => Reason::CommandOverlap { from },
        CommandVerdict::Full => Reason::CommandFull { from },
        CommandVerdict::Accepted => Reason::NoCommand,
    }
}

/// Why no command claims one of some elements: what became of the nearest that names it.
#[tactic(auto, unfolding(explain_model::specs::Commanded::command_reason))]
pub fn command_reason(commanded: &[CommandRecord], asked: &Asked) -> Reason
    ensures { result ≡ command_reason commanded.now (elements asked.now) }
{
    match refused_command(commanded, asked) {
        Some(r) => command_reason_by(r.verdict, r.distance, r.number),
        None => Reason::NoCommand,
    }
}
