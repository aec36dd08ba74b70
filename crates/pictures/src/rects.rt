// Rectangles.
ghost use Rattle.std.specs.Prelude.{◌≡◌, ◌+◌, ◌≤◌, ◌++◌, length, OnOk};
ghost use Rattle.pictures.specs.Elements.{area_text, rect_text, titled_text, hatched_text};

use crate::pieces::{attribute, class};
use fh_base::{Bytes, Line, NoMemory};

/// A rectangle: its left upper corner and its size.
#[derive(Clone, Copy, Debug, PartialEq, Eq)]
pub struct Area {
    pub x: u32,
    pub y: u32,
    pub width: u32,
    pub height: u32,
}

/// Appends the four attributes of an area.
pub(crate) fn area_attributes(line: &mut Line, area: Area)
    requires { length line.old + 160 ≤ 512 }
    ensures text { line.new ≡ line.old ++ area_text area }
    ensures short { length line.new ≤ length line.old + 160 }
{
    attribute(line, b"x", area.x);
    attribute(line, b"y", area.y);
    attribute(line, b"width", area.width);
    attribute(line, b"height", area.height);
}

/// Appends a rectangle of a class, whose name has at most 16 characters.
///
/// # Errors
///
/// [`NoMemory`] where memory runs out. What was appended then is not said.
#[tactic(auto, unfolding(crate::specs::Elements::rect_text))]
pub fn put_rect(to: &mut Bytes, name: &[u8], area: Area) -> Result<(), NoMemory>
    requires { length name.now ≤ 16 }
    ensures { OnOk result (to.new ≡ to.old ++ rect_text name.now area) }
{
    let mut line = Line::new();
    line.text(b"<rect");
    class(&mut line, name);
    area_attributes(&mut line, area);
    line.text(b"/>\n");
    to.push_all(line.as_slice())
}

/// Appends a rectangle of a class, whose name has at most 16 characters, with a title that a browser shows.
///
/// # Errors
///
/// [`NoMemory`] where memory runs out. What was appended then is not said.
#[tactic(auto, unfolding(crate::specs::Elements::titled_text))]
pub fn put_titled(to: &mut Bytes, name: &[u8], area: Area, title: &[u8]) -> Result<(), NoMemory>
    requires { length name.now ≤ 16 }
    ensures { OnOk result (to.new ≡ to.old ++ titled_text name.now area title.now) }
{
    let mut line = Line::new();
    line.text(b"<rect");
    class(&mut line, name);
    area_attributes(&mut line, area);
    line.text(b"><title>");
    to.push_all(line.as_slice())?;
    to.push_all(title)?;
    to.push_all(b"</title></rect>\n")
}

/// Appends a rectangle of the hatching that an opening defines. It takes no part in pointing.
///
/// # Errors
///
/// [`NoMemory`] where memory runs out. What was appended then is not said.
#[tactic(auto, unfolding(crate::specs::Elements::hatched_text))]
pub fn put_hatched(to: &mut Bytes, area: Area) -> Result<(), NoMemory>
    ensures { OnOk result (to.new ≡ to.old ++ hatched_text area) }
{
    let mut line = Line::new();
    line.text(b"<rect");
    area_attributes(&mut line, area);
    line.text(b" fill=\"url(#z)\" pointer-events=\"none\"/>\n");
    to.push_all(line.as_slice())
}
