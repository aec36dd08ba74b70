// The words of an entry.
use std::str::SplitWhitespace;

/// The next word, if it is a number of so many bits.
pub fn byte(words: &mut SplitWhitespace<'_>) -> Option<u8> {
    words.next()?.parse::<u8>().ok()
}

/// The next word, if it is a number of 16 bits.
pub fn number(words: &mut SplitWhitespace<'_>) -> Option<u16> {
    words.next()?.parse::<u16>().ok()
}

/// The next word, if it is a number of 16 bits with its sign.
pub fn short(words: &mut SplitWhitespace<'_>) -> Option<i16> {
    words.next()?.parse::<i16>().ok()
}

/// The next word, if it is a number of 64 bits with its sign.
pub fn long(words: &mut SplitWhitespace<'_>) -> Option<i64> {
    words.next()?.parse::<i64>().ok()
}

/// Some where no word is left.
pub fn over(words: &mut SplitWhitespace<'_>) -> Option<()> {
    match words.next() {
        Some(_) => None,
        None => Some(()),
    }
}
