// The words of a call.
ghost use Rattle.std.specs.Prelude.{◌≡◌};
ghost use Rattle.pcap_export.specs.Ways.{one_way, ways_of};

use crate::ways::Ways;
use air_source::Side;
use fh_base::{Bytes, List};

// The ways that one word is.
fn one_way(way: &[u8]) -> Option<Ways>
    ensures { result ≡ one_way way.now }
{
    if way == b"dl".as_slice() {
        return Some(Ways::To(Side::Ru));
    }
    if way == b"ul".as_slice() {
        return Some(Ways::To(Side::Du));
    }
    None
}

/// The ways that the words are: both without a word.
pub(crate) fn ways_of(words: &List<Bytes>) -> Option<Ways>
    ensures { result ≡ ways_of words.now }
{
    match words.get(0) {
        None => Some(Ways::Both),
        Some(word) if words.len() == 1 => one_way(word.as_slice()),
        Some(_) => None,
    }
}
