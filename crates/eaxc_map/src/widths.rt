// An id and its parts.
ghost use Rattle.std.specs.Prelude.{◌≡◌, ℕ, ◌+◌, ◌-◌, ◌*◌, ◌%◌, ◌^◌, ◌<◌, ◌≤◌, ◌↔◌, IsOk, IfOk, IfErr, IsSome, IfSome, IsTrue};

use thiserror::Error;

/// How many bits of an id each part takes, the DU port in the most significant bits. The widths sum to
/// 16, and each may be 0 to 16.
#[derive(Clone, Copy, Debug, PartialEq, Eq)]
pub struct Widths {
    pub du: u8,
    pub band: u8,
    pub carrier: u8,
    pub port: u8,
    pub ghost whole: { du + band + carrier + port ≡ 16 },
}

/// The parts of an id. A part of width 0 is 0.
#[derive(Clone, Copy, Debug, PartialEq, Eq)]
pub struct Parts {
    pub du: u16,
    pub band: u16,
    pub carrier: u16,
    pub port: u16,
}

/// The widths do not sum to 16, but to `sum`.
#[derive(Clone, Copy, Debug, PartialEq, Eq, Error)]
#[error("the widths sum to {sum} and not to 16")]
pub struct WidthSum {
    pub sum: u16,
}

// the low bits of a number
fn low_bits(number: u32, width: u8) -> u16
    requires { width ≤ 16 }
    ensures { result ≡ number % 2 ^ width }
{
    (number & ((1 << width) - 1)) as u16
}

// whether a part has no more bits than its width
fn fits(part: u16, width: u8) -> bool
    requires { width ≤ 16 }
    ensures { IsTrue result ↔ (part < 2 ^ width) }
{
    (part as u32) >> width == 0
}

// a number, and after its bits those of one more part
fn joined(number: u32, width: u8, part: u16) -> u32
    requires small { number < 2 ^ 16 }
    requires narrow { width ≤ 16 }
    requires fits { part < 2 ^ width }
    ensures { result ≡ number * 2 ^ width + part }
{
    (number << width) | part as u32
}

impl Widths {
    ghost use Rattle.eaxc_map.specs.Ids.{parts_of, number_of, FitWidths, AreParts};

    /// The widths of the DU port, the band and sector, the component carrier and the RU port.
    ///
    /// An error exactly where they do not sum to 16; it says the sum.
    pub fn new(du: u8, band: u8, carrier: u8, port: u8) -> Result<Widths, WidthSum>
        ensures variant { IsOk result ↔ (du + band + carrier + port ≡ 16) }
        ensures ok { IfOk result (λ w. (w.du ≡ du) × (w.band ≡ band) × (w.carrier ≡ carrier) × (w.port ≡ port)) }
        ensures err { IfErr result (λ e. e.sum ≡ du + band + carrier + port) }
    {
        let sum = du as u16 + band as u16 + carrier as u16 + port as u16;
        if sum != 16 {
            return Err(WidthSum { sum });
        }
        Ok(Widths {
            du,
            band,
            carrier,
            port,
        })
    }

    /// The parts of an id: the four digits that spell it, each below 2 to its width.
    pub fn split(&self, id: u16) -> Parts
        ensures parts { result ≡ parts_of self.now id }
        ensures spelled { AreParts self.now id result }
        ensures only { (p : Parts) → AreParts self.now id p → p ≡ result }
    {
        let number = id as u32;
        let above_port = number >> self.port;
        let above_carrier = above_port >> self.carrier;
        Parts {
            du: (above_carrier >> self.band) as u16,
            band: low_bits(above_carrier, self.band),
            carrier: low_bits(above_port, self.carrier),
            port: low_bits(number, self.port),
        }
    }

    // whether each part has no more bits than its width
    fn are_within(&self, p: Parts) -> bool
        ensures { IsTrue result ↔ FitWidths self.now p }
    {
        fits(p.du, self.du)
            && fits(p.band, self.band)
            && fits(p.carrier, self.carrier)
            && fits(p.port, self.port)
    }

    // the number that the parts spell
    fn spell(&self, p: Parts) -> u16
        requires { FitWidths self.now p }
        ensures { result ≡ number_of self.now p }
    {
        let bands = joined(p.du as u32, self.band, p.band);
        let carriers = joined(bands, self.carrier, p.carrier);
        joined(carriers, self.port, p.port) as u16
    }

    /// The id with these parts. None exactly where a part does not fit its width.
    pub fn join(&self, p: Parts) -> Option<u16>
        ensures fits { IsSome result ↔ FitWidths self.now p }
        ensures number { IfSome result (λ id. id ≡ number_of self.now p) }
        ensures parts { (id : ℕ) → id < 2 ^ 16 → (result ≡ Some id) ↔ (parts_of self.now id ≡ p) }
    {
        if !self.are_within(p) {
            return None;
        }
        Some(self.spell(p))
    }
}
