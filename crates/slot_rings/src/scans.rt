// Tests over the cells of one symbol.
ghost use Rattle.std.specs.Prelude.{◌≡◌, ℕ, ◌+◌, ◌^◌, ◌<◌, ◌≤◌, ◌&&◌, false, get_or, is_some};
ghost use Rattle.fh_base.specs.Lists.{every, some};
ghost use Rattle.slot_rings.specs.Blocks.{block_lent};
ghost use Rattle.slot_rings.specs.Places.{claim_in, no_claims, is_due, is_reported};

use crate::blocks::LentBlocks;
use crate::claims::CellClaims;
use crate::judging::claims_at;
use crate::rows::Span;

/// Whether each of these cells of a symbol has a block. The symbol's cells begin at number `base`.
pub(crate) fn all_there(blocks: &LentBlocks<'_>, base: usize, first: u16, count: u16) -> bool
    requires { base < 2 ^ 32 }
    ensures { result ≡ every first count (λ n. is_some (block_lent blocks.now (base + n))) }
{
    for n in first as usize..first as usize + count as usize {
        if blocks.block(base + n).is_none() {
            return false;
        }
    }
    true
}

/// Whether one of these cells is in use and was not reported, where none outside of a span is.
pub(crate) fn any_due(claims: &[CellClaims], base: usize, count: u16, span: Span) -> bool
    requires base { base < 2 ^ 32 }
    requires within { span.end ≤ count }
    requires outside { (n : ℕ) → n < count → (span.first ≤ n → span.end ≤ n)
        → is_due (claim_in (get_or claims.now (base + n) no_claims)) (is_reported claims.now (base + n)) ≡ false }
    ensures { result ≡ some 0 count (λ n. is_due (claim_in (get_or claims.now (base + n) no_claims)) (is_reported claims.now (base + n))) }
{
    for n in span.first as usize..span.end as usize {
        let cell = claims_at(claims, base + n);
        if cell.used() != 0 && !cell.reported {
            return true;
        }
    }
    false
}
