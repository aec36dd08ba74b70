// The downlink cells of a symbol, lent.
ghost use Rattle.std.specs.Prelude.{◌≡◌, option_copied};
ghost use Rattle.unit_model.specs.Radiated.{cell_id, used_mask};

use crate::blocks::LentBlocks;
use crate::claims::CellClaims;
use crate::judging::claims_at;
use crate::rows::Span;
use unit_model::Block;

/// What a report needs of a downlink cell besides its block.
#[derive(Clone, Copy, Debug, PartialEq, Eq)]
pub struct Use {
    /// The elements in use: claimed, and not as idle. Element 0 is in the most significant of 12 bits.
    pub mask: u16,
    /// The section id of its claims, 0 where it has none.
    pub section: u16,
    /// Whether it was reported.
    pub reported: bool,
}

/// The downlink cells of a slot from the first one of a symbol on, as its place keeps them. Where a list ends, nothing is known of
/// the cells after it.
#[derive(Clone, Copy)]
pub struct SymbolCells<'a> {
    /// What is claimed of them, and which were reported.
    pub claims: &'a [CellClaims],
    /// The blocks that were received for them.
    pub blocks: LentBlocks<'a>,
    /// The PRBs of the symbol outside of which no cell is in use.
    pub span: Span,
}

impl<'a> SymbolCells<'a> {
    ghost use Rattle.slot_rings.specs.Symbols.{lent_block, lent_claim, lent_reported};

    /// What a report needs of the cell at a PRB besides its block.
    pub fn cell(&self, prb: u16) -> Use
        ensures mask { result.mask ≡ used_mask (lent_claim self.now prb) }
        ensures section { result.section ≡ cell_id (lent_claim self.now prb) }
        ensures reported { result.reported ≡ lent_reported self.now prb }
    {
        let claims = claims_at(self.claims, prb as usize);
        Use {
            mask: claims.used(),
            section: claims.section(),
            reported: claims.reported,
        }
    }

    /// The block of the cell at a PRB.
    pub fn block(&self, prb: u16) -> Option<&'a Block>
        ensures { option_copied result ≡ lent_block self.now prb }
    {
        self.blocks.block(prb as usize)
    }
}
