// Numbers on a scale of pixels.
ghost use Rattle.std.specs.Prelude.{◌≡◌, ◌^◌, ◌<◌, ◌≤◌};
ghost use Rattle.pictures.specs.Scales.{or_zero, scaled};

/// A number, and 0 for a negative one.
pub fn or_zero(z: i64) -> u64
    ensures { result ≡ or_zero z }
{
    if z < 0 { 0 } else { z as u64 }
}

/// The place of a number on a scale on which a range from 0 to `whole` has so many pixels: rounded down, and the end for a greater
/// number.
#[tactic(auto, using(crate::proofs::Scaling::part_most), unfolding(crate::specs::Scales::scaled))]
pub fn scaled(n: u64, whole: u64, pixels: u32) -> u32
    requires some { 0 < whole }
    requires small { whole < 2 ^ 50 }
    requires few { pixels ≤ 2000 }
    ensures value { result ≡ scaled n whole pixels }
    ensures within { result ≤ pixels }
{
    (n.min(whole) * u64::from(pixels) / whole) as u32
}
