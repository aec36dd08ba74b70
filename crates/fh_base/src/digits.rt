// Single digits, and pairs of them.
ghost use Rattle.std.specs.Prelude.{◌≡◌, ◌+◌, ◌/◌, ◌%◌, ◌<◌};
ghost use Rattle.std.specs.Char.{digit_char};

// The two digits of each number below 100.
static PAIRS: [u8; 200] =
    *b"00010203040506070809101112131415161718192021222324252627282930313233343536373839404142434445464748495051525354555657585960616263646566676869707172737475767778798081828384858687888990919293949596979899";

/// The tens and the ones of a number below 100.
#[inline(always)]
pub(crate) fn pair(n: u32) -> (u8, u8)
    requires { n < 100 }
    ensures tens { result.0 ≡ 48 + n / 10 }
    ensures ones { result.1 ≡ 48 + n % 10 }
{
    let at = n as usize * 2;
    (PAIRS[at], PAIRS[at + 1])
}

// The lower-case digit of a number below 16.
#[inline(always)]
pub(crate) fn hex_digit(d: u8) -> u8
    requires { d < 16 }
    ensures { result ≡ digit_char d }
{
    if d < 10 { b'0' + d } else { b'a' + (d - 10) }
}
