// The PRBs of a carrier, and those that a section names of them.
ghost use Rattle.std.specs.Prelude.{◌≡◌, ℕ, ◌+◌, ◌≤◌, IfSome};
ghost use Rattle.fh_base.specs.Carrier.{count_of, first_of, is_outside, prbs_of};

/// The most PRBs of a carrier (3GPP TS 38.104, 5.3.2).
pub const CARRIER_PRBS: u16 = 273;

/// The PRBs that startPrb and numPrb name on a carrier (O-RAN.WG4.CUS, startPrb and numPrb).
#[derive(Clone, Copy, Debug, PartialEq, Eq)]
pub struct PrbSpan {
    /// The first of them.
    pub first: u16,
    /// How many they are.
    pub count: u16,
}

impl PrbSpan {
    /// Those on a carrier of so many; numPrb 0 names all of them, whatever startPrb.
    pub fn named(start: u16, num: u8, prbs: u16) -> PrbSpan
        ensures first { result.first ≡ first_of start num }
        ensures count { result.count ≡ count_of prbs num }
    {
        if num == 0 {
            PrbSpan {
                first: 0,
                count: prbs,
            }
        } else {
            PrbSpan {
                first: start,
                count: u16::from(num),
            }
        }
    }
}

/// Whether the PRBs that startPrb and numPrb name go past a carrier of so many.
pub fn is_outside(start: u16, num: u8, prbs: u16) -> bool
    ensures { result ≡ is_outside prbs start num }
{
    let span = PrbSpan::named(start, num, prbs);
    u32::from(prbs) < u32::from(span.first) + u32::from(span.count)
}

/// The first PRB that startPrb and numPrb name on a carrier of so many, and their number; numPrb 0 names all. None exactly
/// where numPrb is not 0 and the PRBs go past the carrier's.
pub fn prb_span(start: u16, num: u8, prbs: u16) -> Option<(u16, u16)>
    ensures value { result ≡ prbs_of start num prbs }
    ensures within { IfSome result (λ p. p.0 + p.1 ≤ prbs) }
{
    if is_outside(start, num, prbs) {
        return None;
    }
    let span = PrbSpan::named(start, num, prbs);
    Some((span.first, span.count))
}
