// The tone as it is defined.
ghost use Rattle.std.specs.Prelude.{◌≡◌, ◌≤◌};
ghost use Rattle.air_source.specs.Answers.{Fits16};
ghost use Rattle.air_source.specs.Tones.{tone_of};

use crate::tone_numbers::base;
use crate::tone_turns::{rest_of, wave_of};
use crate::{RePlace, Tone};
use bfp_codec::Wide;

/// The sample of a tone at a resource element. Both numbers lie from -32,768 to 32,767, at every place.
#[tactic(auto, unfolding(crate::specs::Tones::tone_of))]
pub fn tone(t: Tone, place: RePlace) -> Wide
    requires low { 1 ≤ t.amplitude }
    requires high { t.amplitude ≤ 32768 }
    ensures value { result ≡ tone_of t place }
    ensures narrow { Fits16 result }
{
    let v = base(t, place) + 17 * u64::from(place.re);
    let turn = 2 * t.amplitude;
    Wide {
        i: wave_of(rest_of(v, turn), t.amplitude),
        q: wave_of(rest_of(3 * v + 7, turn), t.amplitude),
    }
}
