// What a file is.
ghost use Rattle.std.specs.Prelude.{◌≡◌, ◌≤◌, length, IfOk};
ghost use Rattle.pcap_frames.specs.Parts.{opened};
ghost use Rattle.pcap_frames.specs.Packets.{opened_or_refused};

use crate::blocks::SECTION;
use crate::files::{HEAD, head};
use crate::refusals::PcapRefusal;
use crate::values::Layout;

/// How a file is read, and from which byte on.
#[derive(Clone, Copy)]
pub struct Opening {
    pub layout: Layout,
    pub place: usize,
}

/// Tells a pcapng file by its first bytes, and tests the head of every other.
pub fn opening_of(bytes: &[u8]) -> Result<Opening, PcapRefusal>
    ensures value { opened_or_refused result ≡ opened bytes.now }
    ensures within { IfOk result (λ o. o.place ≤ length bytes.now) }
{
    if bytes.starts_with(&SECTION) {
        // the first block has an order of its own
        return Ok(Opening {
            layout: Layout::Blocks(false),
            place: 0,
        });
    }
    let format = head(bytes)?;
    Ok(Opening {
        layout: Layout::Records(format),
        place: HEAD,
    })
}
