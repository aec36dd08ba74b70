// Texts.
ghost use Rattle.std.specs.Prelude.{◌≡◌, ◌+◌, ◌≤◌, ◌++◌, length, OnOk};
ghost use Rattle.pictures.specs.Elements.{grey_text, anchor_text, text_text};

use crate::pieces::{attribute, class};
use fh_base::{Bytes, Line, NoMemory};

/// Which place of a text is at its point.
#[derive(Clone, Copy, Debug, PartialEq, Eq)]
pub enum Anchor {
    Start,
    Middle,
    End,
}

/// Appends the class of a text, where it is grey.
fn grey_class(line: &mut Line, grey: bool)
    requires { length line.old + 40 ≤ 512 }
    ensures text { line.new ≡ line.old ++ grey_text grey }
    ensures short { length line.new ≤ length line.old + 40 }
{
    if grey {
        class(line, b"g");
    }
}

/// Appends the attribute of an anchor, where it is not the start.
fn anchor_attribute(line: &mut Line, anchor: Anchor)
    requires { length line.old + 40 ≤ 512 }
    ensures text { line.new ≡ line.old ++ anchor_text anchor }
    ensures short { length line.new ≤ length line.old + 40 }
{
    match anchor {
        Anchor::Start => {}
        Anchor::Middle => line.text(b" text-anchor=\"middle\""),
        Anchor::End => line.text(b" text-anchor=\"end\""),
    }
}

/// Appends a text, whose anchor is at a point of its base line.
///
/// # Errors
///
/// [`NoMemory`] where memory runs out. What was appended then is not said.
#[tactic(auto, unfolding(crate::specs::Elements::text_text))]
pub fn put_text(
    to: &mut Bytes,
    x: u32,
    y: u32,
    grey: bool,
    anchor: Anchor,
    text: &[u8],
) -> Result<(), NoMemory>
    ensures { OnOk result (to.new ≡ to.old ++ text_text x y grey anchor text.now) }
{
    let mut line = Line::new();
    line.text(b"<text");
    attribute(&mut line, b"x", x);
    attribute(&mut line, b"y", y);
    grey_class(&mut line, grey);
    anchor_attribute(&mut line, anchor);
    line.text(b">");
    to.push_all(line.as_slice())?;
    to.push_all(text)?;
    to.push_all(b"</text>\n")
}
