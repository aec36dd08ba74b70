// What the lines of a symbol claim, PRB by PRB.
ghost use Rattle.std.specs.Prelude.{◌≡◌, ℕ, ◌+◌, ◌≤◌, ◌<◌, if◌then◌else◌, get_or, length};
ghost use Rattle.unit_model.specs.Claims.{is_from};
ghost use Rattle.du_intake.specs.Lines.{has_symbol};
ghost use Rattle.du_intake.specs.Rows.{AreInside, HaveTwelve, IsRowOf, no_claim, claim_with_line};
ghost use Rattle.du_intake.specs.Symbols.{AreOneSection};

use crate::lines::UplinkLine;
use unit_model::is_from;

/// The elements of a cell that are claimed, all under one section id.
#[derive(Clone, Copy, Debug, PartialEq, Eq)]
pub struct PlannedClaim {
    /// sectionId.
    pub section: u16,
    /// The claimed elements, element 0 in the most significant of 12 bits.
    pub mask: u16,
}

/// No element is claimed.
pub(crate) const NO_CLAIM: PlannedClaim = PlannedClaim {
    section: 0,
    mask: 0,
};

/// Whether a line names cells of a symbol of its slot.
pub(crate) fn has_symbol(line: &UplinkLine, symbol: u8) -> bool
    ensures { result ≡ has_symbol symbol line.now }
{
    is_from(
        u16::from(line.symbol),
        u16::from(line.num_symbol),
        u16::from(symbol),
    )
}

/// A claim with the elements of a line.
fn with_line(line: &UplinkLine, claim: PlannedClaim) -> PlannedClaim
    ensures { result ≡ claim_with_line line.now claim }
{
    PlannedClaim {
        section: line.section,
        mask: claim.mask | line.mask,
    }
}

/// The claim of a PRB.
pub(crate) fn claim_of_prb(row: &[PlannedClaim], prb: u16) -> PlannedClaim
    ensures { result ≡ get_or row.now prb no_claim }
{
    let k = prb as usize;
    if k < row.len() { row[k] } else { NO_CLAIM }
}

/// Claims nothing.
fn clear(row: &mut [PlannedClaim])
    ensures len { length row.new ≡ length row.old }
    ensures none { (prb : ℕ) → get_or row.new prb no_claim ≡ no_claim }
{
    for claim in row.iter_mut() {
        *claim = NO_CLAIM;
    }
}

/// Claims the PRBs of a line.
fn claim_line(row: &mut [PlannedClaim], line: &UplinkLine)
    requires { line.now.first_prb + line.now.prbs ≤ length row.old }
    ensures len { length row.new ≡ length row.old }
    ensures claims { (prb : ℕ) → get_or row.new prb no_claim
        ≡ (if is_from line.now.first_prb line.now.prbs prb then claim_with_line line.now (get_or row.old prb no_claim) else get_or row.old prb no_claim) }
{
    let first = line.first_prb as usize;
    for prb in first..first + line.prbs as usize {
        row[prb] = with_line(line, row[prb]);
    }
}

/// Fills the row with what the lines of a slot claim of a symbol.
pub(crate) fn claim_symbol(row: &mut [PlannedClaim], lines: &[UplinkLine], symbol: u8)
    requires inside { AreInside lines.now (length row.old) }
    requires twelve { HaveTwelve lines.now }
    requires one { AreOneSection lines.now symbol }
    ensures len { length row.new ≡ length row.old }
    ensures claims { IsRowOf lines.now symbol row.new }
{
    clear(row);
    for line in lines {
        if has_symbol(line, symbol) {
            claim_line(row, line);
        }
    }
}
