// Numbers among words.
ghost use Rattle.std.specs.Prelude.{◌≡◌, ◌≤◌, ◌<◌, ◌^◌, IfSome};
ghost use Rattle.fh_base.specs.Numbers.{number_in};

/// The number that 1 to `most` decimal digits spell, where it lies from `low` to `high`. Leading zeros count as digits.
pub fn number_in(word: &[u8], most: usize, low: u64, high: u64) -> Option<u64>
    requires { most ≤ 18 }
    ensures value { result ≡ number_in most low high word.now }
    ensures within { IfSome result (λ n. (low ≤ n) × (n ≤ high) × (n < 10 ^ most)) }
{
    if word.is_empty() || word.len() > most {
        return None;
    }
    let mut n: u64 = 0;
    for b in word {
        if *b < b'0' || *b > b'9' {
            return None;
        }
        n = n * 10 + u64::from(*b - b'0');
    }
    if n < low || n > high {
        return None;
    }
    Some(n)
}
