// Fragments, and the messages that they make whole.
ghost use Rattle.std.specs.Prelude.{◌≡◌, ◌<◌, ◌≤◌, ◌≤ℤ◌, ◌^◌, pos, neg_ℤ, List, IfOk};
ghost use Rattle.ecpri_fragments.specs.Generations.{Fragment, fragment};
ghost use Rattle.ecpri_fragments.specs.Assemblies.{StandsFor, Took, endpoints_of, hold_of, message_of};
ghost use Rattle.ecpri_fragments.specs.Pieces.{joined};
ghost use Rattle.plain_units.specs.Owned.{owned, IsTaken};

use ecpri_fragments::{Assembly, Lease, SeqField, Taken, Verdict};
use fh_base::{Bytes, NoMemory, Ticks};
use std::alloc::Global;

/// A whole message: when the first and the last of its pieces arrived, and their bytes in order.
#[derive(Drop)]
pub(crate) struct OwnedMessage {
    pub(crate) first: Ticks,
    pub(crate) last: Ticks,
    pub(crate) bytes: Bytes,
}

/// The pieces of a message, one after the other.
fn join(alloc: Global, lease: &Lease<'_>) -> Result<Bytes, NoMemory>
    ensures { IfOk result (λ bytes. bytes ≡ joined (message_of lease.now).pieces) }
{
    let mut bytes = Bytes::new(alloc);
    for k in 0..lease.count() {
        bytes.push_all(lease.piece(k))?;
    }
    Ok(bytes)
}

/// The message that a lease shows.
fn own(alloc: Global, lease: &Lease<'_>) -> Result<OwnedMessage, NoMemory>
    ensures { IfOk result (λ m. m ≡ owned (message_of lease.now)) }
{
    let bytes = join(alloc, lease)?;
    Ok(OwnedMessage {
        first: lease.first(),
        last: lease.last(),
        bytes,
    })
}

/// Takes a fragment, and gives the message that it makes whole, if it does. After `NoMemory` the fragment is taken too.
pub(crate) fn take(
    alloc: Global,
    assembly: &mut Assembly,
    ep: usize,
    at: Ticks,
    seq: SeqField,
    bytes: &[u8],
) -> Result<(Verdict, Option<OwnedMessage>), NoMemory>
    requires endpoint { ep < endpoints_of assembly.old }
    requires sub { seq.sub < 128 }
    requires low { neg_ℤ (pos (2 ^ 56)) ≤ℤ at.0 }
    requires high { at.0 ≤ℤ pos (2 ^ 56) }
    ensures took { Took assembly.old assembly.new (fragment ep at seq bytes.now) }
    ensures answer { (arrivals : List Fragment) → StandsFor assembly.old arrivals
        → IfOk result (λ r. IsTaken (hold_of assembly.old) (fragment ep at seq bytes.now) arrivals r.0 r.1) }
{
    let whole = match assembly.take(ep, at, seq, bytes) {
        Taken::Stored => return Ok((Verdict::Stored, None)),
        Taken::Whole(lease) => own(alloc, &lease)?,
        Taken::Repeat => return Ok((Verdict::Repeat, None)),
        Taken::Stray => return Ok((Verdict::Stray, None)),
        Taken::TooLong => return Ok((Verdict::TooLong, None)),
    };
    Ok((Verdict::Whole, Some(whole)))
}
