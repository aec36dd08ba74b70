// The iterator over a message's sections.
ghost use Rattle.std.specs.Prelude.{IsTrue};
ghost use Rattle.cplane_sections.specs.Header.{kind_of};
ghost use Rattle.cplane_sections.specs.Section.{size_of_section};
ghost use Rattle.cplane_sections.specs.Tests.{sections_pass};

use crate::passing::passed_at;
use crate::read_section::section_size;
use crate::values::{CBody, CSection};

/// The sections of a message that passed the tests, in order, each with its maintained symbol number.
#[derive(Drop)]
pub struct Sections<'a> {
    pub(crate) bytes: &'a [u8],
    pub(crate) place: usize,
    pub(crate) body: CBody,
    pub(crate) symbol: u8,
    pub(crate) left: u8,
    ghost passes: { IsTrue (sections_pass left (size_of_section (kind_of body)) bytes.now place symbol) },
}

impl<'a> Iterator for Sections<'a> {
    ghost use Rattle.std.specs.Iterator.{YieldsFirst, item_count};
    ghost use Rattle.cplane_sections.specs.Left.{left_of};

    type Item = CSection;

    ghost next_gives = { YieldsFirst left_of };

    ghost remaining = { item_count left_of };

    fn next(&mut self) -> Option<CSection> {
        if self.left == 0 {
            return None;
        }
        let section = passed_at(self.bytes, self.place, self.body, self.symbol, self.left);
        self.symbol = section.symbol;
        self.place += section_size(self.body);
        self.left -= 1;
        Some(section)
    }
}
