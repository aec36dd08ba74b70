// The next section of a message that passed the tests.
ghost use Rattle.std.specs.Prelude.{◌≡◌, ◌+◌, ◌-◌, ◌≤◌, ◌∷◌, length, IsTrue};
ghost use Rattle.cplane_sections.specs.Header.{kind_of};
ghost use Rattle.cplane_sections.specs.Section.{size_of_section};
ghost use Rattle.cplane_sections.specs.Tests.{sections_pass};
ghost use Rattle.cplane_sections.specs.Message.{sections_of, PassesOn};

use crate::read_section::section_at;
use crate::values::{CBody, CSection};

/// The first of the `left` sections from a place on.
pub fn passed_at(bytes: &[u8], place: usize, body: CBody, before: u8, left: u8) -> CSection
    requires { PassesOn left (kind_of body) bytes.now place before }
    ensures first { sections_of left (kind_of body) bytes.now place before ≡ result ∷ sections_of (left - 1) (kind_of body) bytes.now (place + size_of_section (kind_of body)) result.symbol }
    ensures passes { IsTrue (sections_pass (left - 1) (size_of_section (kind_of body)) bytes.now (place + size_of_section (kind_of body)) result.symbol) }
    ensures room { place + size_of_section (kind_of body) ≤ length bytes.now }
{
    section_at(&bytes[place..], body, before)
}
