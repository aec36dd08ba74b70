// Which frames of a capture are written.
ghost use Rattle.std.specs.Prelude.{◌≡◌};
ghost use Rattle.pcap_export.specs.Ways.{is_wanted};

use air_source::Side;

/// Which frames of a capture are written.
#[derive(Clone, Copy, Debug, PartialEq, Eq)]
pub enum Ways {
    /// Those to both units.
    Both,
    /// Those to one unit.
    To(Side),
}

/// Whether frames to a unit are written.
pub(crate) fn is_wanted(ways: Ways, side: Side) -> bool
    ensures { result ≡ is_wanted ways side }
{
    match ways {
        Ways::Both => true,
        Ways::To(Side::Ru) => matches!(side, Side::Ru),
        Ways::To(Side::Du) => matches!(side, Side::Du),
    }
}
