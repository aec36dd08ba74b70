// What the messages of a symbol that were not decoded say of it.
ghost use Rattle.std.specs.Prelude.{◌≡◌, filter, if◌then◌else◌};
ghost use Rattle.explain_model.specs.SilentReasons.{header_by, header_reason, last_of, repeated_reason, unfinished_reason};
ghost use Rattle.explain_model.specs.Keys.{beginning_key, header_key, repeated_key, same_symbol};

use crate::given::same_symbol;
use explain_model::{BeginningRecord, HeaderRecord, HeaderWhy, Reason, RepeatedRecord, SymbolKey};

/// The reason of a whole message that was not decoded.
fn header_by(why: HeaderWhy, from: u32) -> Reason
    ensures { result ≡ header_by why from }
{
    match why {
        HeaderWhy::Refused => Reason::Refused { from },
        HeaderWhy::WrongWay => Reason::WrongWay { from },
    }
}

/// Whether a whole message is of a symbol.
fn is_header_of(r: &HeaderRecord, key: SymbolKey) -> bool
    ensures { result ≡ same_symbol (header_key r.now) key }
{
    same_symbol(r.key(), key)
}

/// Whether a message under a used sequence id is of a symbol.
fn is_repeated_of(r: &RepeatedRecord, key: SymbolKey) -> bool
    ensures { result ≡ same_symbol (repeated_key r.now) key }
{
    same_symbol(r.key(), key)
}

/// The first whole message of a symbol that was not decoded, if there is one.
pub(crate) fn header_reason(headers: &[HeaderRecord], key: SymbolKey) -> Option<Reason>
    ensures { result ≡ header_reason headers.now key }
{
    for r in headers {
        if is_header_of(r, key) {
            return Some(header_by(r.why, r.number));
        }
    }
    None
}

/// The first message of a symbol that was received under a used sequence id, if there is one.
pub(crate) fn repeated_reason(repeated: &[RepeatedRecord], key: SymbolKey) -> Option<Reason>
    ensures { result ≡ repeated_reason repeated.now key }
{
    for r in repeated {
        if is_repeated_of(r, key) {
            return Some(Reason::Repeated {
                seq: r.seq,
                from: r.number,
            });
        }
    }
    None
}

/// A later message, where it is of a symbol, or else the earlier one.
fn last_with(
    last: Option<BeginningRecord>,
    r: &BeginningRecord,
    key: SymbolKey,
) -> Option<BeginningRecord>
    ensures { result ≡ (if same_symbol (beginning_key r.now) key then Some r.now else last) }
{
    if same_symbol(r.key(), key) {
        Some(*r)
    } else {
        last
    }
}

/// The last message of a symbol that never became whole, if there is one.
fn last_begun(begun: &[BeginningRecord], key: SymbolKey) -> Option<BeginningRecord>
    ensures { result ≡ last_of (filter (λ r. same_symbol (beginning_key r) key) begun.now) }
{
    let mut last: Option<BeginningRecord> = None;
    for r in begun {
        last = last_with(last, r, key);
    }
    last
}

/// The last message of a symbol that never became whole, if there is one.
#[tactic(auto, unfolding(explain_model::specs::SilentReasons::unfinished_reason))]
pub(crate) fn unfinished_reason(begun: &[BeginningRecord], key: SymbolKey) -> Option<Reason>
    ensures { result ≡ unfinished_reason begun.now key }
{
    match last_begun(begun, key) {
        Some(r) => Some(Reason::Unfinished {
            seq: r.seq,
            pieces: usize::from(r.pieces),
            from: r.number,
        }),
        None => None,
    }
}
