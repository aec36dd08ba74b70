// Bit fields of bytes: the words in which every layout is written, and the calls that read and
ghost use Rattle.std.specs.Prelude.{◌≡◌, ℕ, ◌+◌, ◌*◌, ◌<◌, ◌≤◌, ◌^◌, ◌⊎◌, length, slice_index};
ghost use Rattle.bfp_codec.specs.Field.{field};
ghost use Rattle.bfp_codec.specs.Cut.{bits_of, cut};

/// The number that `count` bits from bit `place` spell: the field as it is defined bit by bit,
/// and the same number cut from the one list of all bits.
///
/// At most 128 bits, and all of them inside of `bytes`. No bits spell 0.
pub fn field_at(bytes: &[u8], place: usize, count: usize) -> u128
    requires small { count ≤ 128 }
    requires room { place + count ≤ 8 * length bytes.now }
    ensures number { result ≡ field bytes.now place count }
    ensures cut { result ≡ cut place count (bits_of bytes.now) }
{
    let first = place / 8;
    let skipped = place % 8;
    let mut number: u128 = 0;
    for k in 0..count {
        let at = skipped + k;
        let bit = (bytes[first + at / 8] >> (7 - at % 8)) & 1;
        number = (number << 1) | bit as u128;
    }
    number
}

/// The number in `count` bytes from byte `at`, big endian.
///
/// At most 16 bytes, and all of them inside of `bytes`. No bytes spell 0.
pub fn number_at(bytes: &[u8], at: usize, count: usize) -> u128
    requires small { count ≤ 16 }
    requires room { at + count ≤ length bytes.now }
    ensures { result ≡ field bytes.now (8 * at) (8 * count) }
{
    let mut number: u128 = 0;
    for k in 0..count {
        number = (number << 8) | bytes[at + k] as u128;
    }
    number
}

/// Writes a number into `count` bytes from byte `at`, big endian. All other bytes stay.
///
/// At most 16 bytes, all of them inside of `into`, and `number` below 2 to the number of their
/// bits.
pub fn put_number(into: &mut [u8], at: usize, count: usize, number: u128)
    requires small { count ≤ 16 }
    requires room { at + count ≤ length into.old }
    requires fits { number < 2 ^ (8 * count) }
    ensures number { field into.new (8 * at) (8 * count) ≡ number }
    ensures cut { cut (8 * at) (8 * count) (bits_of into.new) ≡ number }
    ensures others { (k : ℕ) → (k < at) ⊎ (at + count ≤ k) → slice_index into.new k ≡ slice_index into.old k }
{
    for k in 0..count {
        into[at + k] = ((number >> (8 * (count - 1 - k))) & 0xff) as u8;
    }
}
