// A line of text, which takes no memory.
ghost use Rattle.std.specs.Prelude.{◌≡◌, ◌+◌, ◌≤◌, [], ◌++◌, length, take, decimal};
ghost use Rattle.std.specs.Fmt.{signed_decimal};
ghost use Rattle.fh_base.specs.Words.{spaced_text, spaced_signed_text, spaced_pair_text, hex4_text, hex3_text, hex2_text};

use crate::digits::hex_digit;
use crate::places::{ROOM, put_number, put_pair, put_signed, put_small, put_spaced, put_text};
use itoa::Buffer;
use std::marker::Model;

/// A text of at most 512 bytes, which takes no memory. Contracts see it as the list of its bytes.
#[derive(Drop)]
pub struct Line {
    bytes: [u8; ROOM],
    len: usize,
}

impl Model for Line {
    ghost use Rattle.std.specs.Prelude.{ℕ, List, ◌≤◌, take};

    ghost Value = { List ℕ };

    ghost view = { λ l. take l.len l.bytes };

    ghost invariant = { λ l. l.len ≤ 512 };
}

impl Line {
    /// The empty text.
    pub fn new() -> Line
        ensures { result ≡ [] }
    {
        Line {
            bytes: [0; ROOM],
            len: 0,
        }
    }

    /// Empties the line.
    pub fn clear(&mut self)
        ensures { self.new ≡ [] }
    {
        self.len = 0;
    }

    /// How many bytes it has.
    pub fn len(&self) -> usize
        ensures { result ≡ length self.now }
    {
        self.len
    }

    /// Leaves at most the first n bytes.
    pub fn truncate(&mut self, n: usize)
        ensures { self.new ≡ take n self.old }
    {
        if n < self.len {
            self.len = n;
        }
    }

    /// Its bytes.
    pub fn as_slice(&self) -> &[u8]
        ensures bytes { result.now ≡ self.now }
        ensures fits { length result.now ≤ 512 }
    {
        &self.bytes[..self.len]
    }

    /// Appends a text.
    pub fn text(&mut self, more: &[u8])
        requires { length self.old + length more.now ≤ 512 }
        ensures { self.new ≡ self.old ++ more.now }
    {
        self.len = put_text(&mut self.bytes, self.len, more);
    }

    /// Appends a number in decimal.
    #[inline]
    pub fn number(&mut self, n: u64)
        requires { length self.old + 20 ≤ 512 }
        ensures text { self.new ≡ self.old ++ decimal n }
        ensures short { length self.new ≤ length self.old + 20 }
    {
        self.len = put_number(&mut self.bytes, self.len, n);
    }

    /// Appends a signed number of 64 bits in decimal.
    pub fn signed(&mut self, n: i64)
        requires { length self.old + 20 ≤ 512 }
        ensures text { self.new ≡ self.old ++ signed_decimal n }
        ensures short { length self.new ≤ length self.old + 20 }
    {
        self.len = put_signed(&mut self.bytes, self.len, n);
    }

    /// Appends a signed number of 32 bits in decimal; one of at most three digits in the fewest steps.
    #[inline]
    pub fn small(&mut self, n: i32)
        requires { length self.old + 11 ≤ 512 }
        ensures text { self.new ≡ self.old ++ signed_decimal n }
        ensures short { length self.new ≤ length self.old + 11 }
    {
        self.len = put_small(&mut self.bytes, self.len, n);
    }

    /// Appends a space and two signed numbers of 32 bits in decimal, parted by a comma.
    #[inline(always)]
    pub fn spaced_pair(&mut self, first: i32, second: i32)
        requires { length self.old + 24 ≤ 512 }
        ensures text { self.new ≡ self.old ++ spaced_pair_text first second }
        ensures short { length self.new ≤ length self.old + 24 }
    {
        self.len = put_pair(&mut self.bytes, self.len, first, second);
    }

    /// Appends a signed number of 128 bits in decimal.
    pub fn wide(&mut self, n: i128)
        requires { length self.old + 40 ≤ 512 }
        ensures text { self.new ≡ self.old ++ signed_decimal n }
        ensures short { length self.new ≤ length self.old + 40 }
    {
        let mut buffer = Buffer::new();
        let digits = buffer.format(n);
        self.text(digits.as_bytes());
    }

    /// Appends the four hexadecimal digits of 16 bits.
    pub fn hex4(&mut self, n: u16)
        requires { length self.old + 4 ≤ 512 }
        ensures text { self.new ≡ self.old ++ hex4_text n }
        ensures short { length self.new ≤ length self.old + 4 }
    {
        let a = hex_digit((n / 4096 % 16) as u8);
        let b = hex_digit((n / 256 % 16) as u8);
        let c = hex_digit((n / 16 % 16) as u8);
        let d = hex_digit((n % 16) as u8);
        self.text(&[a, b, c, d]);
    }

    /// Appends the three hexadecimal digits of the low 12 bits; the upper four are left out.
    pub fn hex3(&mut self, n: u16)
        requires { length self.old + 3 ≤ 512 }
        ensures text { self.new ≡ self.old ++ hex3_text n }
        ensures short { length self.new ≤ length self.old + 3 }
    {
        let b = hex_digit((n / 256 % 16) as u8);
        let c = hex_digit((n / 16 % 16) as u8);
        let d = hex_digit((n % 16) as u8);
        self.text(&[b, c, d]);
    }

    /// Appends the two hexadecimal digits of 8 bits.
    pub fn hex2(&mut self, n: u8)
        requires { length self.old + 2 ≤ 512 }
        ensures text { self.new ≡ self.old ++ hex2_text n }
        ensures short { length self.new ≤ length self.old + 2 }
    {
        let c = hex_digit(n / 16 % 16);
        let d = hex_digit(n % 16);
        self.text(&[c, d]);
    }

    /// Appends a space and a number in decimal.
    #[inline]
    pub fn spaced(&mut self, n: u64)
        requires { length self.old + 21 ≤ 512 }
        ensures text { self.new ≡ self.old ++ spaced_text n }
        ensures short { length self.new ≤ length self.old + 21 }
    {
        self.len = put_spaced(&mut self.bytes, self.len, n);
    }

    /// Appends a space and a signed number of 64 bits in decimal.
    #[inline]
    pub fn spaced_signed(&mut self, n: i64)
        requires { length self.old + 21 ≤ 512 }
        ensures text { self.new ≡ self.old ++ spaced_signed_text n }
        ensures short { length self.new ≤ length self.old + 21 }
    {
        self.text(b" ");
        self.signed(n);
    }
}
