// The word of a way.
ghost use Rattle.std.specs.Prelude.{◌≡◌, length};
ghost use Rattle.air_source.specs.Units.{way_text};

use air_source::Side;

/// The way of frames to a unit: `dl` to the radio unit, `ul` to the distributed unit.
pub fn way(side: Side) -> &'static [u8]
    ensures text { result.now ≡ way_text side }
    ensures short { length result.now ≡ 2 }
{
    match side {
        Side::Ru => b"dl",
        Side::Du => b"ul",
    }
}
