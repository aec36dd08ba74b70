// Pieces of a frame as hexadecimal digits.
ghost use Rattle.std.specs.Prelude.{◌≡◌, ◌+◌, ◌*◌, ◌≤◌, ◌++◌, take, length};
ghost use Rattle.fh_document.specs.LineWords.{hex_text};

use crate::digits::{BYTES, DIGITS, spelled};

/// How many bytes a piece has at most.
pub const PIECE: usize = 512;

/// How many digits a text has room for: those of a piece, and those of one block more.
pub const TEXT: usize = 1152;

// Puts digits at a place of a text.
#[inline(always)]
fn put(digits: &[u8], place: usize, text: &mut [u8; TEXT])
    requires { place + length digits.now ≤ TEXT }
    ensures { take (place + length digits.now) text.new ≡ take place text.old ++ digits.now }
{
    text[place..place + digits.len()].copy_from_slice(digits);
}

// Puts the digits of the last bytes at a place of a text.
fn spell_last(last: &[u8], place: usize, text: &mut [u8; TEXT])
    requires few { length last.now ≤ BYTES }
    requires room { place + DIGITS ≤ TEXT }
    ensures { take (place + 2 * length last.now) text.new ≡ take place text.old ++ hex_text last.now }
{
    let mut block = [0; BYTES];
    block[..last.len()].copy_from_slice(last);
    put(&spelled(&block), place, text);
}

/// Puts the digits of a piece at the front of a text.
pub fn spell(piece: &[u8], text: &mut [u8; TEXT])
    requires { length piece.now ≤ PIECE }
    ensures { take (2 * length piece.now) text.new ≡ hex_text piece.now }
{
    let mut left = piece;
    let mut place = 0;
    while let Some((block, behind)) = left.split_first_chunk::<BYTES>() {
        put(&spelled(block), place, text);
        place += DIGITS;
        left = behind;
    }
    spell_last(left, place, text);
}
