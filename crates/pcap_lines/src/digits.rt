// Bytes as hexadecimal digits. The loops are over arrays, so that each does many at once.
ghost use Rattle.std.specs.Prelude.{◌≡◌, map};
ghost use Rattle.fh_document.specs.LineWords.{hex_text};
ghost use Rattle.pcap_lines.specs.Digits.{halves, digit_of};

/// How many bytes are spelled at once.
pub const BYTES: usize = 64;

/// How many digits they have.
pub const DIGITS: usize = 128;

// The lower-case digit of a number's lower half.
#[inline(always)]
fn digit_of(n: u8) -> u8
    ensures { result ≡ digit_of n }
{
    let half = n % 16;
    half + b'0' + if half < 10 { 0 } else { b'a' - b'9' - 1 }
}

// The upper half of each byte, and the byte itself.
#[inline(always)]
fn halves(bytes: &[u8; BYTES]) -> [u8; DIGITS]
    ensures { result ≡ halves bytes.now }
{
    let mut halves = [0; DIGITS];
    for i in 0..BYTES {
        halves[2 * i] = bytes[i] / 16;
        halves[2 * i + 1] = bytes[i];
    }
    halves
}

// The digit of the lower half of each number.
#[inline(always)]
fn digits_of(halves: &[u8; DIGITS]) -> [u8; DIGITS]
    ensures { result ≡ map digit_of halves.now }
{
    let mut digits = [0; DIGITS];
    for i in 0..DIGITS {
        digits[i] = digit_of(halves[i]);
    }
    digits
}

/// The digits of some bytes, two for each.
#[tactic(auto, using(crate::proofs::Hex::hex_halves))]
pub fn spelled(bytes: &[u8; BYTES]) -> [u8; DIGITS]
    ensures { result ≡ hex_text bytes.now }
{
    let halves = halves(bytes);
    digits_of(&halves)
}
