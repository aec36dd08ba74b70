ghost use Rattle.std.specs.Prelude.{◌≡◌, ◌≤◌};

/// The bytes of a packed block, at most 49.
#[derive(Clone, Copy, Debug)]
pub struct Packed {
    pub(crate) bytes: [u8; 49],
    len: usize,
    ghost in_range: { len ≤ 49 },
}

impl Packed {
    ghost use Rattle.bfp_codec.specs.Bytes.{bytes_of};

    /// So many zeros, over which a block is packed.
    #[inline(always)]
    pub(crate) fn zeros(len: usize) -> Packed
        requires { len ≤ 49 }
        ensures { result.len ≡ len }
    {
        Packed {
            bytes: [0; 49],
            len,
        }
    }

    /// The bytes, as many as `block_len` says for the method.
    pub fn as_slice(&self) -> &[u8]
        ensures { result.now ≡ bytes_of self.now }
    {
        &self.bytes[..self.len]
    }
}
