// Sets of numbers of frames: a bit for each number, in words of 64, up to the greatest that was added.
ghost use Rattle.std.specs.Prelude.{◌≡◌, ◌==◌, ◌||◌, ◌/◌, ◌<◌, ℕ, length, OnOk};
ghost use Rattle.std.specs.Int.{bit_at};
ghost use Rattle.fh_document.specs.FrameNumbers.{is_marked};

use fh_base::NoMemory;

fn has_bit(word: u64, k: u32) -> bool
    requires { k < 64 }
    ensures { result ≡ (bit_at word k == 1) }
{
    (word >> k) & 1 == 1
}

/// Whether a number is in the set.
pub(crate) fn is_marked(words: &[u64], number: u64) -> bool
    ensures { result ≡ is_marked words.now number }
{
    let at = (number / 64) as usize;
    if at < words.len() {
        has_bit(words[at], (number % 64) as u32)
    } else {
        false
    }
}

/// Makes room for the bit of a number. The set stays the same.
pub(crate) fn reach(words: &mut Vec<u64>, number: u64) -> Result<(), NoMemory>
    ensures same { (q : ℕ) → is_marked words.new.items q ≡ is_marked words.old.items q }
    ensures room { OnOk result (number / 64 < length words.new.items) }
{
    let size = (number / 64) as usize + 1;
    if words.len() < size {
        words.resize(size, 0)?;
    }
    Ok(())
}

/// Adds a number to the set.
pub(crate) fn mark(words: &mut Vec<u64>, number: u64)
    requires { number / 64 < length words.old.items }
    ensures { (q : ℕ) → is_marked words.new.items q ≡ ((q == number) || is_marked words.old.items q) }
{
    words[(number / 64) as usize] |= 1 << ((number % 64) as u32);
}
