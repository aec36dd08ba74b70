// What becomes of the fragments of data.
ghost use Rattle.std.specs.Prelude.{◌≡◌, ◌<◌, ◌≤ℤ◌, IfSome, pos, neg_ℤ, ◌^◌};
ghost use Rattle.ecpri_fragments.specs.Assemblies.{endpoints_of};

use crate::hexadecimal::{octet, text_of};
use crate::words::{byte, long, over};
use ecpri_fragments::{Assembly, Lease, SeqField, Taken, put_seq, read_seq};
use fh_base::Ticks;
use std::alloc::{AllocError, Global};
use std::str::SplitWhitespace;

/// The most ticks that a hold or a time may have here.
const MOST: i64 = 72_000_000_000_000_000;

/// The bytes of the longest piece.
const LONGEST: u16 = 32_768;

/// Fragments of 16 endpoints.
#[derive(Drop)]
pub struct Fragments {
    assembly: Assembly,
    ghost sixteen: { endpoints_of assembly ≡ 16 },
}

impl Fragments {
    /// No fragments, with a hold in ticks.
    pub fn make(alloc: Global, hold: Ticks) -> Result<Fragments, AllocError>
        requires low { pos 0 ≤ℤ hold.0 }
        requires high { hold.0 ≤ℤ pos (2 ^ 56) }
    {
        match Assembly::make(alloc, 16, hold) {
            Ok(assembly) => Ok(Fragments { assembly }),
            Err(_) => Err(AllocError),
        }
    }

    /// What becomes of a fragment.
    pub fn take(&mut self, alloc: Global, fragment: &Fragment) -> Result<String, AllocError> {
        let bytes = vec![in alloc; fragment.field.sub; fragment.len as usize]?;
        judged(alloc, &mut self.assembly, fragment, bytes.as_slice())
    }
}

/// A fragment that an entry names: each of its bytes is its subsequence.
#[derive(Clone, Copy)]
pub struct Fragment {
    at: i64,
    endpoint: u8,
    field: SeqField,
    len: u16,
    ghost low: { neg_ℤ (pos (2 ^ 56)) ≤ℤ at },
    ghost high: { at ≤ℤ pos (2 ^ 56) },
    ghost known: { endpoint < 16 },
    ghost sub: { field.sub < 128 },
}

/// The fragment of `TICKS ENDPOINT SEQUENCE LENGTH`; the sequence field is four hexadecimal digits.
pub fn read_fragment(words: &mut SplitWhitespace<'_>) -> Option<Fragment> {
    let at = long(words)?;
    let endpoint = byte(words)?;
    let field = sequence(words.next()?)?;
    let len = words.next()?.parse::<u16>().ok()?;
    over(words)?;
    if at < -MOST || at > MOST || endpoint >= 16 || len > LONGEST {
        return None;
    }
    Some(Fragment {
        at,
        endpoint,
        field,
        len,
    })
}

/// The sequence field that four hexadecimal digits spell.
fn sequence(word: &str) -> Option<SeqField>
    ensures { IfSome result (λ f. f.sub < 128) }
{
    let digits = word.as_bytes();
    if digits.len() != 4 {
        return None;
    }
    let id = octet(digits[0], digits[1])?;
    let rest = octet(digits[2], digits[3])?;
    Some(read_seq([id, rest]))
}

/// The sequence field of `SEQUENCE`.
pub fn read_sequence(words: &mut SplitWhitespace<'_>) -> Option<SeqField>
    ensures { IfSome result (λ f. f.sub < 128) }
{
    let field = sequence(words.next()?)?;
    over(words)?;
    Some(field)
}

/// A sequence field's sequence number, E and subsequence number, and the bytes to which it is written.
pub fn sequence_text(alloc: Global, field: SeqField) -> Result<String, AllocError>
    requires { field.sub < 128 }
{
    let written = text_of(alloc, &put_seq(field))?;
    format!(in alloc;
        "seq {} e {} sub {} written {written}",
        field.seq, field.last as u8, field.sub
    )
}

/// The hold of `TICKS`.
pub fn read_hold(words: &mut SplitWhitespace<'_>) -> Option<Ticks>
    ensures low { IfSome result (λ t. pos 0 ≤ℤ t.0) }
    ensures high { IfSome result (λ t. t.0 ≤ℤ pos (2 ^ 56)) }
{
    let ticks = long(words)?;
    over(words)?;
    if ticks < 0 || ticks > MOST {
        return None;
    }
    Some(Ticks(ticks))
}

fn judged(
    alloc: Global,
    assembly: &mut Assembly,
    fragment: &Fragment,
    bytes: &[u8],
) -> Result<String, AllocError>
    requires { endpoints_of assembly.old ≡ 16 }
    ensures { endpoints_of assembly.new ≡ 16 }
{
    let ep = fragment.endpoint as usize;
    match assembly.take(ep, Ticks(fragment.at), fragment.field, bytes) {
        Taken::Stored => String::from_str(alloc, "Stored"),
        Taken::Whole(lease) => whole_text(alloc, &lease),
        Taken::Repeat => String::from_str(alloc, "Repeat"),
        Taken::Stray => String::from_str(alloc, "Stray"),
        Taken::TooLong => String::from_str(alloc, "TooLong"),
    }
}

/// A whole message: the arrivals of its first and its last piece, and of each piece, in order, how many bytes it has
/// and the first of them.
fn whole_text(alloc: Global, lease: &Lease<'_>) -> Result<String, AllocError> {
    let mut text = format!(in alloc; "Whole {} {}", lease.first().0, lease.last().0)?;
    for k in 0..lease.count() {
        let piece = lease.piece(k);
        let first = piece.first().copied().unwrap_or(0);
        text.push_str(format!(in alloc; " {}x{first}", piece.len())?.as_str())?;
    }
    Ok(text)
}
