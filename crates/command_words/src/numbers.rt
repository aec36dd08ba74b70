// Numbers among the words of the command line.
ghost use Rattle.std.specs.Prelude.{◌≡◌, ◌≤◌, ◌<◌, IfSome};
ghost use Rattle.command_words.specs.Words.{plain_in};

/// The number that decimal digits spell, where it lies from `low` to `high`. Any number of leading zeros is allowed.
pub(crate) fn plain_in(word: &[u8], low: u64, high: u64) -> Option<u64>
    requires { high < 1000000000 }
    ensures value { result ≡ plain_in low high word.now }
    ensures within { IfSome result (λ n. (low ≤ n) × (n ≤ high)) }
{
    if word.is_empty() {
        return None;
    }
    let mut n: u64 = 0;
    for b in word {
        if *b < b'0' || *b > b'9' {
            return None;
        }
        n = (n * 10 + u64::from(*b - b'0')).min(high + 1);
    }
    if n < low || n > high {
        return None;
    }
    Some(n)
}
