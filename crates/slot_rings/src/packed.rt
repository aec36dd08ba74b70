// Packed PRBs, as they are in a message.
ghost use Rattle.std.specs.Prelude.{◌≡◌, ◌*◌, ◌<◌, length, take, drop};
ghost use Rattle.bfp_codec.specs.Layout.{HasWidth, length_of};

use bfp_codec::{Method, block_len};

/// Packed PRBs of a section, one after the other.
#[derive(Clone, Copy)]
pub struct PackedRun<'a> {
    /// The section's id.
    pub id: u16,
    /// How they are packed; each has as many bytes as `block_len` says for it.
    pub method: Method,
    /// How many there are.
    pub count: u16,
    /// All their bytes.
    pub bytes: &'a [u8],
    ghost len: { length bytes.now ≡ count * length_of method },
}

impl<'a> PackedRun<'a> {
    /// The bytes of the PRB with number `k`, 0 for the first.
    pub(crate) fn prb(&self, k: usize) -> &'a [u8]
        requires width { HasWidth self.now.method }
        requires within { k < self.now.count }
        ensures value { result.now ≡ take (length_of self.now.method) (drop (k * length_of self.now.method) self.now.bytes.now) }
        ensures len { length result.now ≡ length_of self.now.method }
    {
        let len = block_len(self.method);
        let from = k * len;
        &self.bytes[from..from + len]
    }
}
