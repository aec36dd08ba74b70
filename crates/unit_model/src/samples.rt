// The samples that data gave a cell.
ghost use Rattle.std.specs.Prelude.{◌≡◌};
ghost use Rattle.unit_model.specs.Radiated.{samples_under};

use crate::cells::Block;
use bfp_codec::Wide;

/// The samples of a block, if it was received under a section id.
pub fn samples_under(id: u16, block: Option<Block>) -> Option<[Wide; 12]>
    ensures { result ≡ samples_under id block }
{
    match block {
        None => None,
        Some(block) => {
            if block.id == id {
                Some(block.samples)
            } else {
                None
            }
        }
    }
}
