//! A part of a message that is written: a header or a section's headers.
ghost use Rattle.std.specs.Prelude.{◌≡◌, ◌≤◌, length, take};
ghost use Rattle.bfp_codec.specs.Layout.{AreBytes};

/// At most 12 bytes.
#[derive(Clone, Copy, Debug)]
pub(crate) struct Part {
    pub(crate) bytes: [u8; 12],
    pub(crate) len: usize,
    ghost in_range: { len ≤ 12 },
}

impl Part {
    ghost use Rattle.frame_bytes.specs.Written.{bytes_of};

    pub(crate) fn new(bytes: [u8; 12], len: usize) -> Part
        requires { len ≤ 12 }
        ensures held { bytes_of result ≡ take len bytes }
        ensures len { result.len ≡ len }
        ensures are_bytes { AreBytes bytes }
    {
        Part { bytes, len }
    }

    /// The bytes.
    pub(crate) fn as_slice(&self) -> &[u8]
        ensures bytes { result.now ≡ bytes_of self.now }
        ensures len { length result.now ≡ self.now.len }
    {
        &self.bytes[..self.len]
    }
}
