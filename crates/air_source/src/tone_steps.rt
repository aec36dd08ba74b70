// The tone by one remainder for a PRB and a step for each element.
ghost use Rattle.std.specs.Prelude.{◌≡◌, ℕ, ◌+◌, ◌*◌, ◌%◌, ◌<◌, ◌≤◌};
ghost use Rattle.air_source.specs.Answers.{Fits16};
ghost use Rattle.air_source.specs.declared.places.RePlace.{RePlace};
ghost use Rattle.air_source.specs.Steps.{IsSteps};
ghost use Rattle.air_source.specs.Tones.{base_of, tone_of, tone_block};
ghost use Rattle.air_source.specs.declared.tones.Tone.{Tone};

use crate::tone_numbers::base;
use crate::tone_turns::{rest_of, stepped, steps_by, wave_of};
use crate::{RePlace, Tone};
use bfp_codec::Wide;
use fh_base::Slot;
use std::marker::Model;

/// A tone beside the remainders of its steps from element 0 of a PRB to the others, so that the samples
/// of a PRB take one division for I and one for Q. Contracts see it as its tone.
#[derive(Drop)]
pub struct ToneSteps {
    tone: Tone,
    // twice the amplitude
    turn: u32,
    i: [u32; 12],
    q: [u32; 12],
    ghost low: { 1 ≤ tone.amplitude },
    ghost high: { tone.amplitude ≤ 32768 },
    ghost twice: { turn ≡ 2 * tone.amplitude },
    ghost i_steps: { IsSteps 17 tone.amplitude i },
    ghost q_steps: { IsSteps 51 tone.amplitude q },
}

impl Model for ToneSteps {
    ghost Value = { Tone };

    ghost view = { λ s. s.tone };
}

// The remainders for element 0 of a PRB, by twice the amplitude.
#[derive(Clone, Copy)]
struct Rests {
    i: u32,
    q: u32,
}

impl ToneSteps {
    /// The steps of a tone.
    pub fn of(t: Tone) -> ToneSteps
        requires low { 1 ≤ t.amplitude }
        requires high { t.amplitude ≤ 32768 }
        ensures { result ≡ t }
    {
        let turn = 2 * t.amplitude;
        ToneSteps {
            tone: t,
            turn,
            i: steps_by(17, turn),
            q: steps_by(51, turn),
        }
    }

    // The remainders for the place's PRB.
    #[inline(always)]
    fn rests(&self, place: RePlace) -> Rests
        ensures i { result.i ≡ base_of self.now place % (2 * self.now.amplitude) }
        ensures q { result.q ≡ (3 * base_of self.now place + 7) % (2 * self.now.amplitude) }
        ensures i_small { result.i < 2 * self.now.amplitude }
        ensures q_small { result.q < 2 * self.now.amplitude }
    {
        let v = base(self.tone, place);
        Rests {
            i: rest_of(v, self.turn),
            q: rest_of(3 * v + 7, self.turn),
        }
    }

    // The sample of an element from the remainders for its PRB.
    #[inline(always)]
    fn sample(&self, rests: Rests, re: u8) -> Wide
        requires re { re < 12 }
        requires i { rests.i < 2 * self.now.amplitude }
        requires q { rests.q < 2 * self.now.amplitude }
        ensures value { (p : RePlace) → p.re ≡ re → rests.i ≡ base_of self.now p % (2 * self.now.amplitude) → rests.q ≡ (3 * base_of self.now p + 7) % (2 * self.now.amplitude) → result ≡ tone_of self.now p }
        ensures narrow { Fits16 result }
    {
        let re = re as usize;
        let amplitude = self.tone.amplitude;
        Wide {
            i: wave_of(stepped(rests.i, self.i[re], self.turn), amplitude),
            q: wave_of(stepped(rests.q, self.q[re], self.turn), amplitude),
        }
    }

    /// The sample of the tone at an element under 12, the same as [`tone`](crate::tone) answers.
    #[inline(always)]
    pub fn at(&self, place: RePlace) -> Wide
        requires { place.re < 12 }
        ensures value { result ≡ tone_of self.now place }
        ensures narrow { Fits16 result }
    {
        self.sample(self.rests(place), place.re)
    }

    /// The twelve samples of the tone in a PRB of a symbol.
    #[inline(always)]
    pub fn block(&self, id: u16, slot: Slot, symbol: u8, prb: u16) -> [Wide; 12]
        ensures { result ≡ tone_block self.now id slot symbol prb }
    {
        let rests = self.rests(RePlace {
            id,
            slot,
            symbol,
            prb,
            re: 0,
        });
        let mut block = [Wide { i: 0, q: 0 }; 12];
        for re in 0..12u8 {
            block[re as usize] = self.sample(rests, re);
        }
        block
    }
}
