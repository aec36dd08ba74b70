ghost use Rattle.std.specs.Prelude.{◌≡◌, List, length};
ghost use Rattle.bfp_codec.specs.Layout.{HasWidth, length_of, packed_of};
ghost use Rattle.bfp_codec.specs.declared.samples.Iq.{Iq};

/// How the samples of a PRB are written (udCompMeth and udIqWidth of O-RAN.WG4.CUS).
#[derive(Clone, Copy, Debug, PartialEq, Eq)]
pub enum Method {
    /// No compression: 16 bits for each number.
    Plain,
    /// Block floating point with mantissas of so many bits, 1 to 16.
    Bfp(u8),
}

/// How the sections of an endpoint's U-plane messages give their method.
#[derive(Clone, Copy, Debug, PartialEq, Eq)]
pub struct Format {
    /// Each section has a compression header of its own.
    pub dynamic: bool,
    /// The method of every section where there is none.
    pub method: Method,
}

/// The number of bytes of a packed block: 48, or 1 for the exponent and 3 for each bit of the width.
pub fn block_len(method: Method) -> usize
    requires { HasWidth method }
    ensures value { result ≡ length_of method }
    ensures packed { (block : List Iq) → length (packed_of method block) ≡ result }
{
    match method {
        Method::Plain => 48,
        Method::Bfp(width) => 1 + 3 * width as usize,
    }
}
