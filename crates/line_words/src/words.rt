// The words of a line.
ghost use Rattle.std.specs.Prelude.{◌≡◌, ℕ, ◌+◌, ◌<◌, ◌∷◌, ◌++◌, length, map, take, List};
ghost use Rattle.line_words.specs.Words.{words_of};
ghost use Rattle.fh_base.specs.Numbers.{word_at};

use crate::parts::cut_near;
use std::marker::Model;

/// How many words of a line are kept.
pub const KEPT: usize = 20;

/// Keeps a word after so many others, where there is room for it.
#[inline(always)]
fn keep_word<'a>(word: &'a [u8], count: usize, kept: &mut [&'a [u8]; KEPT])
    ensures size { length kept.new ≡ KEPT }
    ensures word { (ws : List (List ℕ)) → take KEPT (map (λ x. x.now) (take (count + 1) kept.new) ++ ws)
        ≡ take KEPT (map (λ x. x.now) (take count kept.old) ++ word.entry.now ∷ ws) }
{
    if count < KEPT {
        kept[count] = word;
    }
}

/// Keeps the first words of a line, in place of those that were kept, and answers how many words the line has.
#[inline(always)]
fn keep<'a>(line: &'a [u8], kept: &mut [&'a [u8]; KEPT]) -> usize
    ensures count { result ≡ length (words_of line.entry.now) }
    ensures first { map (λ x. x.now) (take result kept.new) ≡ take KEPT (words_of line.entry.now) }
{
    let mut count: usize = 0;
    let mut rest = Some(line);
    'words: while let Some(text) = rest {
        let (word, behind) = cut_near(b' ', text);
        if !word.is_empty() {
            keep_word(word, count, kept);
            count += 1;
        }
        rest = behind;
    }
    count
}

/// The words of a line: what is between spaces and is not empty. Contracts see them as a list of texts.
///
/// One value may serve for all lines of a text ([`Words::read`]), since to make and to move the kept words takes longer than to find
/// them.
#[derive(Drop)]
pub struct Words<'a> {
    line: &'a [u8],
    /// The first words; what is after the last of them is none.
    kept: [&'a [u8]; KEPT],
    /// How many words there are.
    count: usize,
}

impl<'a> Model for Words<'a> {
    ghost use Rattle.std.specs.Prelude.{◌≡◌, ℕ, List, map, length, take};
    ghost use Rattle.line_words.specs.Words.{words_of};
    ghost use Rattle.line_words.specs.declared.words.TheConstants.{KEPT};

    ghost Value = { List (List ℕ) };

    ghost view = { λ w. words_of w.line.now };

    ghost invariant = { λ w. (w.count ≡ length (words_of w.line.now))
        × (map (λ x. x.now) (take w.count w.kept) ≡ take KEPT (words_of w.line.now)) };
}

impl<'a> Words<'a> {
    ghost use Rattle.std.specs.Prelude.{[]};

    /// No words.
    #[inline]
    pub fn new() -> Words<'a>
        ensures { result ≡ [] }
    {
        Words {
            line: &[],
            kept: [&[]; KEPT],
            count: 0,
        }
    }

    /// The words of a line.
    #[inline(always)]
    pub fn of(line: &'a [u8]) -> Words<'a>
        ensures { result ≡ words_of line.entry.now }
    {
        let mut kept: [&[u8]; KEPT] = [&[]; KEPT];
        let count = keep(line, &mut kept);
        Words { line, kept, count }
    }

    /// Reads the words of a line, in place of those that were there.
    #[inline]
    pub fn read(&mut self, line: &'a [u8])
        ensures { self.new ≡ words_of line.entry.now }
    {
        self.line = line;
        self.count = keep(line, &mut self.kept);
    }

    /// How many words there are, also where not all are kept.
    #[inline]
    pub fn len(&self) -> usize
        ensures { result ≡ length self.now }
    {
        self.count
    }

    /// The word with this index, or the empty one where there is none.
    #[inline]
    pub fn word(&self, i: usize) -> &[u8]
        requires { i < KEPT }
        ensures { result.now ≡ word_at self.now i }
    {
        if i < self.count { self.kept[i] } else { b"" }
    }
}

/// The first word of a line, or the empty one where it has none.
#[inline]
pub fn first_word(line: &[u8]) -> &[u8]
    ensures { result.now ≡ word_at (words_of line.now) 0 }
{
    let mut rest = Some(line);
    'words: while let Some(text) = rest {
        let (word, behind) = cut_near(b' ', text);
        if !word.is_empty() {
            return word;
        }
        rest = behind;
    }
    b""
}
