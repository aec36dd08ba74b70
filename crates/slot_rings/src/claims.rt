// The claims of one cell.
ghost use Rattle.std.specs.Prelude.{◌≡◌, ℕ, ◌<◌, false, if◌then◌else◌, Some};
ghost use Rattle.unit_model.specs.Claims.{in_mask};

/// The bits of all 12 elements.
const ALL: u16 = 0xFFF;

/// The claimed elements of a cell, all under one section id, and whether the cell was reported.
#[derive(Clone, Copy, Debug, PartialEq, Eq)]
pub struct CellClaims {
    pub id: u16,
    /// The claimed elements, element 0 in the most significant of 12 bits.
    pub claimed: u16,
    /// Those of them that are idle.
    pub idle: u16,
    /// Whether the cell was reported. Without claims it never is.
    pub reported: bool,
}

/// No claims.
pub(crate) const NONE: CellClaims = CellClaims {
    id: 0,
    claimed: 0,
    idle: 0,
    reported: false,
};

impl CellClaims {
    ghost use Rattle.unit_model.specs.Claims.{is_claimed, is_overlapped};
    ghost use Rattle.unit_model.specs.Radiated.{used_mask, cell_id};
    ghost use Rattle.slot_rings.specs.Places.{claim_in};
    ghost use Rattle.unit_model.specs.declared.cells.Claim.{Claim};

    /// Whether each element that a mask names is claimed, under this id.
    pub(crate) fn has(self, id: u16, mask: u16) -> bool
        ensures { result ≡ is_claimed id mask (claim_in self) }
    {
        if self.id == id {
            self.claimed & mask & ALL == mask & ALL
        } else {
            mask & ALL == 0
        }
    }

    /// Whether an element that a mask names is claimed, or one is claimed under another id.
    pub(crate) fn clashes(self, id: u16, mask: u16) -> bool
        ensures { result ≡ is_overlapped id mask (claim_in self) }
    {
        if self.id == id {
            self.claimed & mask & ALL != 0
        } else {
            self.claimed & ALL != 0
        }
    }

    /// The claims with those of a further mask, of a cell that was reported or not.
    pub(crate) fn with(self, id: u16, mask: u16, idle: bool) -> CellClaims
        requires { is_overlapped id mask (claim_in self) ≡ false }
        ensures each { (re : ℕ) → re < 12 → claim_in result re ≡ (if in_mask mask re then Some (record { id = id; idle = idle }) else claim_in self re) }
        ensures reported { result.reported ≡ self.reported }
    {
        CellClaims {
            id,
            claimed: self.claimed | mask,
            idle: if idle {
                self.idle | mask
            } else {
                self.idle & !mask
            },
            reported: self.reported,
        }
    }

    /// The elements in use: those that are claimed and not idle.
    pub(crate) fn used(self) -> u16
        ensures { result ≡ used_mask (claim_in self) }
    {
        self.claimed & !self.idle & ALL
    }

    /// The section id of the claims, 0 where there are none.
    pub(crate) fn section(self) -> u16
        ensures { result ≡ cell_id (claim_in self) }
    {
        if self.claimed & ALL == 0 { 0 } else { self.id }
    }
}
