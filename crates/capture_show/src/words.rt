// The texts of words and numbers.
ghost use Rattle.std.specs.Prelude.{◌≡◌, ◌+◌, ◌≤◌, ◌++◌, length};
ghost use Rattle.capture_show.specs.Lines.{word_text, field_text};

use crate::values::{Field, Word};
use fh_base::Line;
use member_lines::way;

/// Appends a word.
pub fn put_word(line: &mut Line, word: Word)
    requires { length line.old + 20 ≤ 512 }
    ensures text { line.new ≡ line.old ++ word_text word }
    ensures short { length line.new ≤ length line.old + 20 }
{
    match word {
        Word::Hex2(n) => line.hex2(n),
        Word::Hex3(n) => line.hex3(n),
        Word::Hex4(n) => line.hex4(n),
        Word::Way(side) => line.text(way(side)),
        Word::Command(why) => line.text(why.name().as_bytes()),
        Word::Fragmented => line.text(b"Fragmented"),
        Word::Frame(why) => line.text(why.name().as_bytes()),
    }
}

/// Appends what a member says.
pub fn put_field(line: &mut Line, field: Field)
    requires { length line.old + 20 ≤ 512 }
    ensures text { line.new ≡ line.old ++ field_text field }
    ensures short { length line.new ≤ length line.old + 20 }
{
    match field {
        Field::Count(n) => line.number(n),
        Field::Signed(n) => line.signed(n),
        Field::Word(word) => put_word(line, word),
    }
}
