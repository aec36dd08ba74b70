//! The transport header of a frame.
ghost use Rattle.std.specs.Prelude.{◌≡◌, ◌+◌, ◌<◌, ◌^◌, ◌≤◌, List, length};
ghost use Rattle.frame_bytes.specs.Spelled.{in_bytes};
ghost use Rattle.frame_bytes.specs.Transport.{transport_fields};

use ecpri_fragments::{SeqField, put_seq};
use ecpri_frames::{Head, put_head};

/// How many bytes the transport header has.
pub(crate) const TRANSPORT_LEN: usize = 8;

/// The eCPRI common header of a message of this type, its id and its sequence field, before so many
/// application bytes.
pub(crate) fn transport(kind: u8, id: u16, seq: SeqField, application: u16) -> [u8; 8]
    requires sub { seq.sub < 128 }
    requires size { application + 4 < 2 ^ 16 }
    ensures { result ≡ in_bytes (transport_fields kind id seq (4 + application)) }
{
    let head = put_head(Head {
        more: false,
        kind,
        size: 4 + application,
    });
    let field = put_seq(seq);
    [
        head[0],
        head[1],
        head[2],
        head[3],
        (id / 256) as u8,
        (id % 256) as u8,
        field[0],
        field[1],
    ]
}
