// The sections of a message, from its first.
ghost use Rattle.std.specs.Prelude.{◌≡◌};
ghost use Rattle.cplane_sections.specs.Tests.{IsHeadOf};
ghost use Rattle.cplane_sections.specs.Message.{sections_in};
ghost use Rattle.cplane_sections.specs.Left.{left_of};

use crate::iterating::Sections;
use crate::read_header::head_size;
use crate::values::CHead;

/// The sections of a message of which [`check`](crate::check) gave this header.
pub fn sections<'a>(bytes: &'a [u8], head: &CHead) -> Sections<'a>
    requires { IsHeadOf head.now bytes.now }
    ensures { left_of result ≡ sections_in head.now bytes.now }
{
    Sections {
        bytes,
        place: head_size(head.body),
        body: head.body,
        symbol: head.start_symbol,
        left: head.count,
    }
}
