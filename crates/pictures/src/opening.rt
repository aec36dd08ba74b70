// How a picture begins and ends.
ghost use Rattle.std.specs.Prelude.{◌≡◌, ◌++◌, OnOk};
ghost use Rattle.pictures.specs.Opening.{style_text, head_text, ground_text, hatching_text, opening_text, closing_text};

use crate::pieces::attribute;
use fh_base::{Bytes, Line, NoMemory};

/// Appends the style of all classes.
#[tactic(auto, unfolding(crate::specs::Opening::style_text))]
fn put_style(to: &mut Bytes) -> Result<(), NoMemory>
    ensures { OnOk result (to.new ≡ to.old ++ style_text) }
{
    to.push_all(
        b"text{font:11px sans-serif;fill:#222}.t{font-size:15px;font-weight:bold}.g{fill:#777}.shown-dl{fill:#0072b2}.shown-ul{fill:#009e73}.late{fill:#d55e00}.early{fill:#e69f00}.unfinished{fill:#cc79a7}.other{fill:#f0e442}.refused{fill:#882255}.repeated{fill:#000}.command{fill:#56b4e9}.nodata{fill:#888}.panel{fill:#fafafa;stroke:#bbb}.slot{stroke:#ddd}.frame{stroke:#999}.win{fill:#dde7f2;stroke:#0072b2}.ok{fill:#0072b2}.zero{stroke:#111;stroke-width:2}",
    )
}

/// Appends the beginning of the element of the picture, of a size.
#[tactic(auto, unfolding(crate::specs::Opening::head_text))]
fn put_head(to: &mut Bytes, width: u32, height: u32) -> Result<(), NoMemory>
    ensures { OnOk result (to.new ≡ to.old ++ head_text width height) }
{
    let mut line = Line::new();
    line.text(b"<svg xmlns=\"http://www.w3.org/2000/svg\"");
    attribute(&mut line, b"width", width);
    attribute(&mut line, b"height", height);
    line.text(b" viewBox=\"0 0");
    line.spaced(u64::from(width));
    line.spaced(u64::from(height));
    line.text(b"\"><style>");
    to.push_all(line.as_slice())
}

/// Appends the end of the style's line and the hatching.
#[tactic(auto, unfolding(crate::specs::Opening::hatching_text))]
fn put_hatching(to: &mut Bytes) -> Result<(), NoMemory>
    ensures { OnOk result (to.new ≡ to.old ++ hatching_text) }
{
    to.push_all(
        b"</style>\n<defs><pattern id=\"z\" width=\"4\" height=\"4\" patternUnits=\"userSpaceOnUse\" patternTransform=\"rotate(45)\"><rect width=\"2\" height=\"4\" fill=\"#fff\" fill-opacity=\"0.75\"/></pattern></defs>\n",
    )
}

/// Appends the ground of the picture.
#[tactic(auto, unfolding(crate::specs::Opening::ground_text))]
fn put_ground(to: &mut Bytes, width: u32, height: u32) -> Result<(), NoMemory>
    ensures { OnOk result (to.new ≡ to.old ++ ground_text width height) }
{
    let mut line = Line::new();
    line.text(b"<rect");
    attribute(&mut line, b"width", width);
    attribute(&mut line, b"height", height);
    line.text(b" fill=\"#fff\"/>\n");
    to.push_all(line.as_slice())
}

/// Appends the opening of a picture of a size: four lines with the style of all classes, the hatching, the ground and the title.
///
/// # Errors
///
/// [`NoMemory`] where memory runs out. What was appended then is not said.
#[tactic(auto, unfolding(crate::specs::Opening::opening_text))]
pub fn put_opening(to: &mut Bytes, width: u32, height: u32, title: &[u8]) -> Result<(), NoMemory>
    ensures { OnOk result (to.new ≡ to.old ++ opening_text width height title.now) }
{
    put_head(to, width, height)?;
    put_style(to)?;
    put_hatching(to)?;
    put_ground(to, width, height)?;
    to.push_all(b"<text class=\"t\" x=\"10\" y=\"22\">")?;
    to.push_all(title)?;
    to.push_all(b"</text>\n")
}

/// Appends the last line of a picture.
///
/// # Errors
///
/// [`NoMemory`] where memory runs out, and nothing was appended.
#[tactic(auto, unfolding(crate::specs::Opening::closing_text))]
pub fn put_closing(to: &mut Bytes) -> Result<(), NoMemory>
    ensures { OnOk result (to.new ≡ to.old ++ closing_text) }
{
    to.push_all(b"</svg>\n")
}
