// Straight lines.
ghost use Rattle.std.specs.Prelude.{◌≡◌, ◌+◌, ◌≤◌, ◌++◌, length, OnOk};
ghost use Rattle.pictures.specs.Elements.{path_text, down_text, across_text};

use crate::pieces::class;
use fh_base::{Bytes, Line, NoMemory};

/// Appends a path of a class from a point on, by so many pixels in a direction: `v` down, `h` to the right.
fn put_path(
    to: &mut Bytes,
    name: &[u8],
    x: u32,
    y: u32,
    direction: &[u8],
    by: u32,
) -> Result<(), NoMemory>
    requires name { length name.now ≤ 16 }
    requires direction { length direction.now ≤ 1 }
    ensures { OnOk result (to.new ≡ to.old ++ path_text name.now x y direction.now by) }
{
    let mut line = Line::new();
    line.text(b"<path");
    class(&mut line, name);
    line.text(b" d=\"M");
    line.number(u64::from(x));
    line.spaced(u64::from(y));
    line.text(direction);
    line.number(u64::from(by));
    line.text(b"\"/>\n");
    to.push_all(line.as_slice())
}

/// Appends a line of a class, whose name has at most 16 characters, from a point downwards.
///
/// # Errors
///
/// [`NoMemory`] where memory runs out. What was appended then is not said.
#[tactic(auto, unfolding(crate::specs::Elements::down_text))]
pub fn put_down(to: &mut Bytes, name: &[u8], x: u32, y: u32, height: u32) -> Result<(), NoMemory>
    requires { length name.now ≤ 16 }
    ensures { OnOk result (to.new ≡ to.old ++ down_text name.now x y height) }
{
    put_path(to, name, x, y, b"v", height)
}

/// Appends a line of a class, whose name has at most 16 characters, from a point to the right.
///
/// # Errors
///
/// [`NoMemory`] where memory runs out. What was appended then is not said.
#[tactic(auto, unfolding(crate::specs::Elements::across_text))]
pub fn put_across(to: &mut Bytes, name: &[u8], x: u32, y: u32, width: u32) -> Result<(), NoMemory>
    requires { length name.now ≤ 16 }
    ensures { OnOk result (to.new ≡ to.old ++ across_text name.now x y width) }
{
    put_path(to, name, x, y, b"h", width)
}
