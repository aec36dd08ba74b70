// Pieces of elements, in a line.
ghost use Rattle.std.specs.Prelude.{◌≡◌, ◌+◌, ◌≤◌, ◌++◌, length};
ghost use Rattle.pictures.specs.Elements.{attribute_text, class_text};

use fh_base::Line;

/// Appends a space, a name of at most 8 characters, and a number in quotes.
pub(crate) fn attribute(line: &mut Line, name: &[u8], n: u32)
    requires room { length line.old + 40 ≤ 512 }
    requires short { length name.now ≤ 8 }
    ensures text { line.new ≡ line.old ++ attribute_text name.now n }
    ensures short { length line.new ≤ length line.old + 40 }
{
    line.text(b" ");
    line.text(name);
    line.text(b"=\"");
    line.number(u64::from(n));
    line.text(b"\"");
}

/// Appends the attribute of a class whose name has at most 16 characters.
pub(crate) fn class(line: &mut Line, name: &[u8])
    requires room { length line.old + 40 ≤ 512 }
    requires short { length name.now ≤ 16 }
    ensures text { line.new ≡ line.old ++ class_text name.now }
    ensures short { length line.new ≤ length line.old + 40 }
{
    line.text(b" class=\"");
    line.text(name);
    line.text(b"\"");
}
