// A caller of bfp_codec.
ghost use Rattle.std.specs.Prelude.{◌≡◌, ℕ, ◌≤◌, ◌<◌};
ghost use Rattle.bfp_codec.specs.declared.methods.Method.TheVariants.{Bfp};
ghost use Rattle.bfp_codec.specs.Exponent.{exponent_of};
ghost use Rattle.bfp_codec.specs.Samples.{component};
ghost use Rattle.bfp_codec.specs.Shrunk.{IsNear, shrunk, shrunk_number};

use bfp_codec::{Iq, Method, Wide, pack, unpack};

/// The samples that a receiver has of a PRB that is sent with mantissas of `width` bits: each of the 24 numbers is at
/// most the one that was sent, and less than 2 to the exponent below it.
pub fn received(block: &[Iq; 12], width: u8) -> [Wide; 12]
    requires low { 1 ≤ width }
    requires high { width ≤ 16 }
    ensures samples { result ≡ shrunk (Bfp width) block.now }
    ensures near { (k : ℕ) → k < 24 → IsNear (exponent_of width block.now) (shrunk_number (Bfp width) block.now k) (component block.now k) }
{
    let method = Method::Bfp(width);
    let packed = pack(method, block);
    unpack(method, packed.as_slice())
}
