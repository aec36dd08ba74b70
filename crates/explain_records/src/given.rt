// What the data of a symbol say of its PRBs.
ghost use Rattle.std.specs.Prelude.{◌≡◌, if◌then◌else◌};
ghost use Rattle.explain_model.specs.SilentReasons.{covers_prb, gives_prb, giver_of, is_on_time, misses_prb, other_reason, untimely_by, untimely_reason};
ghost use Rattle.explain_records.specs.Nearest.{nearer_of, nearest_missing};
ghost use Rattle.explain_model.specs.Keys.{same_symbol};

use explain_model::{DataRecord, Reason, SymbolKey};
use unit_model::{is_from, same_slot};
use window_config::Class;

/// Whether two symbols are the same.
pub(crate) fn same_symbol(a: SymbolKey, b: SymbolKey) -> bool
    ensures { result ≡ same_symbol a b }
{
    a.side == b.side && a.ep == b.ep && same_slot(&a.slot, &b.slot) && a.symbol == b.symbol
}

/// Whether a section of data covers a PRB of a symbol.
#[tactic(auto, unfolding(explain_model::specs::SilentReasons::covers_prb))]
fn covers_prb(key: SymbolKey, prb: u16, r: &DataRecord) -> bool
    ensures { result ≡ covers_prb key prb r.now }
{
    same_symbol(r.key(), key) && is_from(r.first_prb, r.prbs, prb)
}

/// Whether a section is on time.
fn is_on_time(class: Class) -> bool
    ensures { result ≡ is_on_time class }
{
    match class {
        Class::OnTime => true,
        Class::Late | Class::Early => false,
    }
}

/// Whether a section gives a PRB of a symbol its block, if no other did.
fn gives_prb(key: SymbolKey, prb: u16, r: &DataRecord) -> bool
    ensures { result ≡ gives_prb key prb r.now }
{
    covers_prb(key, prb, r) && is_on_time(r.class)
}

/// Whether a section covers a PRB of a symbol, and is late or early.
fn misses_prb(key: SymbolKey, prb: u16, r: &DataRecord) -> bool
    ensures { result ≡ misses_prb key prb r.now }
{
    covers_prb(key, prb, r) && !is_on_time(r.class)
}

/// The section that gave a PRB of a symbol its block: the first on time that covers it, if there is one.
pub fn giver_of(given: &[DataRecord], key: SymbolKey, prb: u16) -> Option<DataRecord>
    ensures { result ≡ giver_of given.now key prb }
{
    for r in given {
        if gives_prb(key, prb, r) {
            return Some(*r);
        }
    }
    None
}

/// Of the sections that cover a PRB of a symbol late or early the nearest to its window, and of those the first.
fn nearest_missing(given: &[DataRecord], key: SymbolKey, prb: u16) -> Option<DataRecord>
    ensures { result ≡ nearest_missing given.now key prb }
{
    let mut nearest: Option<DataRecord> = None;
    for r in given {
        nearest = nearest_with(nearest, r, key, prb);
    }
    nearest
}

/// The nearest with a section more, where that covers the PRB late or early.
fn nearest_with(
    nearest: Option<DataRecord>,
    r: &DataRecord,
    key: SymbolKey,
    prb: u16,
) -> Option<DataRecord>
    ensures { result ≡ (if misses_prb key prb r.now then Some (nearer_of (λ s. s.distance) nearest r.now) else nearest) }
{
    if misses_prb(key, prb, r) {
        Some(nearer(nearest, *r))
    } else {
        nearest
    }
}

/// The nearer of two sections to its window; at one distance the first.
fn nearer(first: Option<DataRecord>, next: DataRecord) -> DataRecord
    ensures { result ≡ nearer_of (λ r. r.distance) first next }
{
    match first {
        Some(r) if r.distance <= next.distance => r,
        _ => next,
    }
}

/// The block of another section id that is at a PRB of a symbol, if there is one.
#[tactic(auto, unfolding(explain_model::specs::SilentReasons::other_reason))]
pub(crate) fn other_reason(given: &[DataRecord], key: SymbolKey, prb: u16) -> Option<Reason>
    ensures { result ≡ other_reason given.now key prb }
{
    match giver_of(given, key, prb) {
        Some(r) => Some(Reason::Other {
            section: r.section,
            from: r.number,
        }),
        None => None,
    }
}

/// The nearest data that covered a PRB of a symbol late or early, if any did.
#[tactic(auto, unfolding(explain_model::specs::SilentReasons::untimely_reason))]
pub(crate) fn untimely_reason(given: &[DataRecord], key: SymbolKey, prb: u16) -> Option<Reason>
    ensures { result ≡ untimely_reason given.now key prb }
{
    match nearest_missing(given, key, prb) {
        Some(r) => untimely_by(r.class, r.distance, r.number),
        None => None,
    }
}

/// The reason of data that were late or early by so much.
fn untimely_by(class: Class, by: u64, from: u32) -> Option<Reason>
    ensures { result ≡ untimely_by class by from }
{
    match class {
        Class::OnTime => None,
        Class::Late => Some(Reason::Late { by, from }),
        Class::Early => Some(Reason::Early { by, from }),
    }
}
