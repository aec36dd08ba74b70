// Allocations against the claims of their slot.
ghost use Rattle.std.specs.Prelude.{◌≡◌, ◌≢◌, ℕ, ◌+◌, ◌*◌, ◌^◌, ◌<◌, ◌≤◌, ◌&&◌, false, get_or, vec_capacity, vec_len, true, if◌then◌else◌, Some};
ghost use Rattle.fh_base.specs.Carrier.{is_outside};
ghost use Rattle.unit_model.specs.Claims.{first_prb, prb_count, cell_of, in_mask, is_from, is_claimed, is_overlapped, claim_of};
ghost use Rattle.unit_model.specs.Commands.{is_uplink};
ghost use Rattle.fh_base.specs.Lists.{every, some};
ghost use Rattle.slot_rings.specs.Places.{claim_in, claims_in, is_reported, no_claims};
ghost use Rattle.slot_rings.specs.Rows.{AreRows};
ghost use Rattle.slot_rings.specs.Written.{AreBlankElsewhere};
ghost use Rattle.slot_rings.specs.Verdicts.{repeats_by, overlaps_by, verdict_by};
ghost use Rattle.fh_base.specs.declared.symbols.TheConstants.{SLOT_SYMBOLS};

use crate::claims::{CellClaims, NONE};
use crate::lists::{put_all, reach};
use crate::rows::{Row, note, row_at};
use crate::written::{Spans, is_unwritten, widen};
use fh_base::{SLOT_SYMBOLS, is_outside};
use unit_model::{Allocation, CommandVerdict, SLOT_SECTIONS};

/// The first PRB that an allocation covers.
pub(crate) fn first_prb(a: &Allocation) -> usize
    ensures { result ≡ first_prb a.now }
{
    a.prbs().first as usize
}

/// How many PRBs it covers.
pub(crate) fn prb_count(a: &Allocation) -> usize
    ensures { result ≡ prb_count a.now }
{
    a.prbs().count as usize
}

/// Whether the radio unit sends data for it.
pub(crate) fn is_uplink(a: &Allocation) -> bool
    ensures { result ≡ is_uplink a.now }
{
    !a.down && !a.idle
}

/// The claims of one cell.
pub(crate) fn claims_at(claims: &[CellClaims], k: usize) -> CellClaims
    ensures { result ≡ get_or claims.now k no_claims }
{
    if k < claims.len() { claims[k] } else { NONE }
}

/// Whether each cell of one symbol that an allocation covers has its claims. The symbol's cells begin at number `base`.
fn row_has(claims: &[CellClaims], base: usize, a: &Allocation) -> bool
    requires { base < 2 ^ 32 }
    ensures { result ≡ every (first_prb a.now) (prb_count a.now)
        (λ n. is_claimed a.now.section a.now.mask (claim_in (get_or claims.now (base + n) no_claims))) }
{
    let first = first_prb(a);
    for n in first..first + prb_count(a) {
        if !claims_at(claims, base + n).has(a.section, a.mask) {
            return false;
        }
    }
    true
}

/// Whether a cell of one symbol that an allocation covers has a claim against it.
fn row_clashes(claims: &[CellClaims], base: usize, a: &Allocation) -> bool
    requires { base < 2 ^ 32 }
    ensures { result ≡ some (first_prb a.now) (prb_count a.now)
        (λ n. is_overlapped a.now.section a.now.mask (claim_in (get_or claims.now (base + n) no_claims))) }
{
    let first = first_prb(a);
    for n in first..first + prb_count(a) {
        if claims_at(claims, base + n).clashes(a.section, a.mask) {
            return true;
        }
    }
    false
}

/// Whether each cell of a symbol that an allocation covers has its claims.
fn symbol_has(claims: &[CellClaims], rows: &[Row], symbol: usize, a: &Allocation) -> bool
    requires rows { AreRows a.now.endpoint.prbs claims.now rows.now }
    requires inside { is_outside a.now.endpoint.prbs a.now.start_prb a.now.num_prb ≡ false }
    requires some { 0 < a.now.endpoint.prbs }
    requires small { symbol < 2 ^ 16 }
    ensures { result ≡ every (first_prb a.now) (prb_count a.now)
        (λ n. is_claimed a.now.section a.now.mask (claims_in a.now.endpoint.prbs claims.now (cell_of a.now symbol n))) }
{
    match row_at(rows, symbol) {
        Row::Known(run) => run.has(first_prb(a), prb_count(a), a.section, a.mask),
        Row::Mixed => row_has(claims, symbol * a.endpoint.prbs as usize, a),
    }
}

/// Whether a cell of a symbol that an allocation covers has a claim against it.
fn symbol_clashes(claims: &[CellClaims], rows: &[Row], symbol: usize, a: &Allocation) -> bool
    requires rows { AreRows a.now.endpoint.prbs claims.now rows.now }
    requires inside { is_outside a.now.endpoint.prbs a.now.start_prb a.now.num_prb ≡ false }
    requires small { symbol < 2 ^ 16 }
    ensures { result ≡ some (first_prb a.now) (prb_count a.now)
        (λ n. is_overlapped a.now.section a.now.mask (claims_in a.now.endpoint.prbs claims.now (cell_of a.now symbol n))) }
{
    match row_at(rows, symbol) {
        Row::Known(run) => run.clashes(first_prb(a), prb_count(a), a.section, a.mask),
        Row::Mixed => row_clashes(claims, symbol * a.endpoint.prbs as usize, a),
    }
}

/// Whether all that an allocation names is claimed under its id.
fn repeats(claims: &[CellClaims], rows: &[Row], a: &Allocation) -> bool
    requires rows { AreRows a.now.endpoint.prbs claims.now rows.now }
    requires inside { is_outside a.now.endpoint.prbs a.now.start_prb a.now.num_prb ≡ false }
    requires some { 0 < a.now.endpoint.prbs }
    ensures { result ≡ repeats_by (claims_in a.now.endpoint.prbs claims.now) a.now }
{
    let first = a.symbol as usize;
    for symbol in first..first + a.num_symbol as usize {
        if !symbol_has(claims, rows, symbol, a) {
            return false;
        }
    }
    true
}

/// Whether a cell that an allocation covers has a claim against it.
fn overlaps(claims: &[CellClaims], rows: &[Row], a: &Allocation) -> bool
    requires rows { AreRows a.now.endpoint.prbs claims.now rows.now }
    requires inside { is_outside a.now.endpoint.prbs a.now.start_prb a.now.num_prb ≡ false }
    ensures { result ≡ overlaps_by (claims_in a.now.endpoint.prbs claims.now) a.now }
{
    let first = a.symbol as usize;
    for symbol in first..first + a.num_symbol as usize {
        if symbol_clashes(claims, rows, symbol, a) {
            return true;
        }
    }
    false
}

/// The verdict on an allocation that is on time, over the claims of its slot and direction and the number of its uplink
/// sections.
pub(crate) fn verdict(
    claims: &[CellClaims],
    rows: &[Row],
    uplinks: usize,
    a: &Allocation,
) -> CommandVerdict
    requires rows { AreRows a.now.endpoint.prbs claims.now rows.now }
    requires some { 0 < a.now.endpoint.prbs }
    ensures { result ≡ verdict_by (claims_in a.now.endpoint.prbs claims.now) uplinks a.now }
{
    if is_outside(a.start_prb, a.num_prb, a.endpoint.prbs) {
        CommandVerdict::Range
    } else if repeats(claims, rows, a) {
        CommandVerdict::Repeat
    } else if overlaps(claims, rows, a) {
        CommandVerdict::Overlap
    } else if is_uplink(a) && SLOT_SECTIONS <= uplinks {
        CommandVerdict::Full
    } else {
        CommandVerdict::Accepted
    }
}

/// Claims the cells from number `from` on, which are blank: all are the same.
fn claim_fresh(claims: &mut Vec<CellClaims>, from: usize, count: usize, a: &Allocation)
    requires fresh { (k : ℕ) → from ≤ k → k < from + count → get_or claims.old.items k no_claims ≡ no_claims }
    requires room { from + count ≤ vec_capacity claims.old }
    requires small { from + count < 2 ^ 32 }
    ensures each { (k re : ℕ) → re < 12 → claim_in (get_or claims.new.items k no_claims) re
        ≡ (if is_from from count k && in_mask a.now.mask re then Some (claim_of a.now) else claim_in (get_or claims.old.items k no_claims) re) }
    ensures others { (k : ℕ) → is_from from count k ≡ false → get_or claims.new.items k no_claims ≡ get_or claims.old.items k no_claims }
    ensures reported { (k : ℕ) → is_reported claims.new.items k ≡ is_reported claims.old.items k }
    ensures capacity { vec_capacity claims.old ≤ vec_capacity claims.new }
{
    let one = NONE.with(a.section, a.mask, a.idle);
    put_all(claims, from, count, NONE, one);
}

/// Claims one cell, whatever was claimed of it.
fn claim_one(claims: &mut Vec<CellClaims>, k: usize, a: &Allocation)
    requires within { k < vec_len claims.old }
    requires free { is_overlapped a.now.section a.now.mask (claim_in (get_or claims.old.items k no_claims)) ≡ false }
    ensures here { (re : ℕ) → re < 12 → claim_in (get_or claims.new.items k no_claims) re
        ≡ (if in_mask a.now.mask re then Some (claim_of a.now) else claim_in (get_or claims.old.items k no_claims) re) }
    ensures others { (i : ℕ) → i ≢ k → get_or claims.new.items i no_claims ≡ get_or claims.old.items i no_claims }
    ensures reported { (i : ℕ) → is_reported claims.new.items i ≡ is_reported claims.old.items i }
    ensures len { vec_len claims.new ≡ vec_len claims.old }
    ensures capacity { vec_capacity claims.old ≤ vec_capacity claims.new }
{
    claims[k] = claims[k].with(a.section, a.mask, a.idle);
}

/// Claims the cells from number `from` on, whatever was claimed of them.
fn claim_more(claims: &mut Vec<CellClaims>, from: usize, count: usize, a: &Allocation)
    requires room { from + count ≤ vec_capacity claims.old }
    requires small { from + count < 2 ^ 32 }
    requires free { (k : ℕ) → from ≤ k → k < from + count
        → is_overlapped a.now.section a.now.mask (claim_in (get_or claims.old.items k no_claims)) ≡ false }
    ensures each { (k re : ℕ) → re < 12 → claim_in (get_or claims.new.items k no_claims) re
        ≡ (if is_from from count k && in_mask a.now.mask re then Some (claim_of a.now) else claim_in (get_or claims.old.items k no_claims) re) }
    ensures others { (k : ℕ) → is_from from count k ≡ false → get_or claims.new.items k no_claims ≡ get_or claims.old.items k no_claims }
    ensures reported { (k : ℕ) → is_reported claims.new.items k ≡ is_reported claims.old.items k }
    ensures capacity { vec_capacity claims.old ≤ vec_capacity claims.new }
{
    reach(claims, from + count, NONE);
    for k in from..from + count {
        claim_one(claims, k, a);
    }
}

/// Claims the cells from number `from` on, which are blank if they are fresh.
fn claim_run(claims: &mut Vec<CellClaims>, from: usize, count: usize, fresh: bool, a: &Allocation)
    requires fresh { fresh ≡ true → (k : ℕ) → from ≤ k → k < from + count → get_or claims.old.items k no_claims ≡ no_claims }
    requires room { from + count ≤ vec_capacity claims.old }
    requires small { from + count < 2 ^ 32 }
    requires free { (k : ℕ) → from ≤ k → k < from + count
        → is_overlapped a.now.section a.now.mask (claim_in (get_or claims.old.items k no_claims)) ≡ false }
    ensures each { (k re : ℕ) → re < 12 → claim_in (get_or claims.new.items k no_claims) re
        ≡ (if is_from from count k && in_mask a.now.mask re then Some (claim_of a.now) else claim_in (get_or claims.old.items k no_claims) re) }
    ensures others { (k : ℕ) → is_from from count k ≡ false → get_or claims.new.items k no_claims ≡ get_or claims.old.items k no_claims }
    ensures reported { (k : ℕ) → is_reported claims.new.items k ≡ is_reported claims.old.items k }
    ensures capacity { vec_capacity claims.old ≤ vec_capacity claims.new }
{
    if fresh {
        claim_fresh(claims, from, count, a);
    } else {
        claim_more(claims, from, count, a);
    }
}

/// The number of the first cell that an allocation covers in a symbol.
fn first_cell(symbol: usize, a: &Allocation) -> usize
    requires symbol { symbol < SLOT_SYMBOLS }
    requires inside { is_outside a.now.endpoint.prbs a.now.start_prb a.now.num_prb ≡ false }
    ensures value { result ≡ symbol * a.now.endpoint.prbs + first_prb a.now }
    ensures within { result + prb_count a.now ≤ SLOT_SYMBOLS * a.now.endpoint.prbs }
    ensures small { result + prb_count a.now < 2 ^ 32 }
    ensures fits { first_prb a.now + prb_count a.now < 2 ^ 16 }
{
    symbol * a.endpoint.prbs as usize + first_prb(a)
}

/// Claims the cells of a symbol that an allocation covers.
fn claim_row(claims: &mut Vec<CellClaims>, spans: &mut Spans, symbol: usize, a: &Allocation)
    requires symbol { symbol < SLOT_SYMBOLS }
    requires inside { is_outside a.now.endpoint.prbs a.now.start_prb a.now.num_prb ≡ false }
    requires room { SLOT_SYMBOLS * a.now.endpoint.prbs ≤ vec_capacity claims.old }
    requires blank { AreBlankElsewhere no_claims a.now.endpoint.prbs spans.old claims.old.items }
    requires free { (k : ℕ) → symbol * a.now.endpoint.prbs + first_prb a.now ≤ k → k < symbol * a.now.endpoint.prbs + first_prb a.now + prb_count a.now
        → is_overlapped a.now.section a.now.mask (claim_in (get_or claims.old.items k no_claims)) ≡ false }
    ensures blank { AreBlankElsewhere no_claims a.now.endpoint.prbs spans.new claims.new.items }
    ensures each { (k re : ℕ) → re < 12 → claim_in (get_or claims.new.items k no_claims) re
        ≡ (if is_from (symbol * a.now.endpoint.prbs + first_prb a.now) (prb_count a.now) k && in_mask a.now.mask re then Some (claim_of a.now)
        else claim_in (get_or claims.old.items k no_claims) re) }
    ensures reported { (k : ℕ) → is_reported claims.new.items k ≡ is_reported claims.old.items k }
    ensures capacity { vec_capacity claims.old ≤ vec_capacity claims.new }
{
    let from = first_cell(symbol, a);
    let prbs = a.prbs();
    let fresh = is_unwritten(spans, symbol, prbs);
    widen(spans, symbol, prbs);
    claim_run(claims, from, prbs.count as usize, fresh, a);
}

/// Claims all that an allocation names, where nothing is claimed against it.
fn claim_cells(claims: &mut Vec<CellClaims>, spans: &mut Spans, a: &Allocation)
    requires within { a.now.symbol + a.now.num_symbol ≤ SLOT_SYMBOLS }
    requires inside { is_outside a.now.endpoint.prbs a.now.start_prb a.now.num_prb ≡ false }
    requires room { SLOT_SYMBOLS * a.now.endpoint.prbs ≤ vec_capacity claims.old }
    requires blank { AreBlankElsewhere no_claims a.now.endpoint.prbs spans.old claims.old.items }
    requires free { overlaps_by (claims_in a.now.endpoint.prbs claims.old.items) a.now ≡ false }
    ensures blank { AreBlankElsewhere no_claims a.now.endpoint.prbs spans.new claims.new.items }
    ensures each { (symbol prb re : ℕ) → prb < a.now.endpoint.prbs → re < 12
        → claim_in (get_or claims.new.items (symbol * a.now.endpoint.prbs + prb) no_claims) re
        ≡ (if (is_from a.now.symbol a.now.num_symbol symbol && is_from (first_prb a.now) (prb_count a.now) prb) && in_mask a.now.mask re then Some (claim_of a.now)
        else claim_in (get_or claims.old.items (symbol * a.now.endpoint.prbs + prb) no_claims) re) }
    ensures reported { (k : ℕ) → is_reported claims.new.items k ≡ is_reported claims.old.items k }
    ensures capacity { vec_capacity claims.old ≤ vec_capacity claims.new }
{
    let first = a.symbol as usize;
    for symbol in first..first + a.num_symbol as usize {
        claim_row(claims, spans, symbol, a);
    }
}

/// The same, and notes what is known of its symbols.
pub(crate) fn claim(
    claims: &mut Vec<CellClaims>,
    spans: &mut Spans,
    rows: &mut [Row; SLOT_SYMBOLS],
    a: &Allocation,
)
    requires rows { AreRows a.now.endpoint.prbs claims.old.items rows.old }
    requires within { a.now.symbol + a.now.num_symbol ≤ SLOT_SYMBOLS }
    requires inside { is_outside a.now.endpoint.prbs a.now.start_prb a.now.num_prb ≡ false }
    requires room { SLOT_SYMBOLS * a.now.endpoint.prbs ≤ vec_capacity claims.old }
    requires blank { AreBlankElsewhere no_claims a.now.endpoint.prbs spans.old claims.old.items }
    requires free { overlaps_by (claims_in a.now.endpoint.prbs claims.old.items) a.now ≡ false }
    ensures blank { AreBlankElsewhere no_claims a.now.endpoint.prbs spans.new claims.new.items }
    ensures rows { AreRows a.now.endpoint.prbs claims.new.items rows.new }
    ensures each { (symbol prb re : ℕ) → prb < a.now.endpoint.prbs → re < 12
        → claim_in (get_or claims.new.items (symbol * a.now.endpoint.prbs + prb) no_claims) re
        ≡ (if (is_from a.now.symbol a.now.num_symbol symbol && is_from (first_prb a.now) (prb_count a.now) prb) && in_mask a.now.mask re then Some (claim_of a.now)
        else claim_in (get_or claims.old.items (symbol * a.now.endpoint.prbs + prb) no_claims) re) }
    ensures reported { (k : ℕ) → is_reported claims.new.items k ≡ is_reported claims.old.items k }
    ensures capacity { vec_capacity claims.old ≤ vec_capacity claims.new }
{
    claim_cells(claims, spans, a);
    note(rows, a);
}
