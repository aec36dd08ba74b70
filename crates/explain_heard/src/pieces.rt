// The bytes of a complete message, where its pieces are.
ghost use Rattle.std.specs.Prelude.{◌≡◌, length, take, drop, IfSome, slice_index_or, [], ◌∷◌};
ghost use Rattle.ecpri_fragments.specs.Assemblies.{message_of as whole_of};
ghost use Rattle.ecpri_fragments.specs.Pieces.{joined};
ghost use Rattle.explain_heard.specs.Heard.{byte_at, first_four, first_eight};

use ecpri_fragments::Lease;

/// The byte with this index, 0 where there is none.
fn byte_at(bytes: &[u8], k: usize) -> u8
    ensures { result ≡ byte_at bytes.now k }
{
    match bytes.get(k) {
        Some(b) => *b,
        None => 0,
    }
}

/// The first eight bytes; a byte that is not there is 0.
pub(crate) fn first_eight(bytes: &[u8]) -> [u8; 8]
    ensures { result ≡ first_eight bytes.now }
{
    [
        byte_at(bytes, 0),
        byte_at(bytes, 1),
        byte_at(bytes, 2),
        byte_at(bytes, 3),
        byte_at(bytes, 4),
        byte_at(bytes, 5),
        byte_at(bytes, 6),
        byte_at(bytes, 7),
    ]
}

/// How many bytes the pieces of a message have together. None where the number does not fit.
#[tactic(auto, using(crate::proofs::JoinLemmas::total_next))]
pub(crate) fn total_of(lease: &Lease<'_>) -> Option<usize>
    ensures { IfSome result (λ n. n ≡ length (joined (whole_of lease.now).pieces)) }
{
    let mut total = 0usize;
    for k in 0..lease.count() {
        total = total.checked_add(lease.piece(k).len())?;
    }
    Some(total)
}

/// The byte with this index of all pieces together, 0 where there is none.
fn joined_at(lease: &Lease<'_>, k: usize) -> u8
    ensures { result ≡ byte_at (joined (whole_of lease.now).pieces) k }
{
    let mut left = k;
    for n in 0..lease.count() {
        let piece = lease.piece(n);
        if left < piece.len() {
            return piece[left];
        }
        left -= piece.len();
    }
    0
}

/// The first four bytes of all pieces together; a byte that is not there is 0.
pub(crate) fn first_four(lease: &Lease<'_>) -> [u8; 4]
    ensures { result ≡ first_four (joined (whole_of lease.now).pieces) }
{
    [
        joined_at(lease, 0),
        joined_at(lease, 1),
        joined_at(lease, 2),
        joined_at(lease, 3),
    ]
}
