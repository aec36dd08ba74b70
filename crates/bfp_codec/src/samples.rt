/// A sample of a resource element before compression: 16 bits each of I and Q.
#[derive(Clone, Copy, Debug, PartialEq, Eq)]
pub struct Iq {
    /// The in-phase part.
    pub i: i16,
    /// The quadrature part.
    pub q: i16,
}

/// A sample of a resource element after decompression.
#[derive(Clone, Copy, Debug, PartialEq, Eq)]
pub struct Wide {
    /// The in-phase part.
    pub i: i32,
    /// The quadrature part.
    pub q: i32,
}
