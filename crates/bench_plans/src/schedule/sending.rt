// All frames of a plan.
ghost use Rattle.std.specs.Prelude.{◌<◌, ◌≡◌};
ghost use Rattle.air_source.specs.Answers.{Fits16};
ghost use Rattle.air_source.specs.Tones.{tone_of};
ghost use Rattle.du_scheduler.specs.Plans.{IsPlan};

use air_source::{RePlace, Samples, Tone, ToneSteps};
use bfp_codec::Wide;
use du_scheduler::{Plan, Plane, Sent};

/// How many frames were sent, and the sum of their last bytes.
#[derive(Clone, Copy, Debug, PartialEq, Eq)]
pub struct Sums {
    pub commands: u32,
    pub fragments: u32,
    pub sum: u32,
}

impl Sums {
    /// Of no frames.
    pub const fn none() -> Sums {
        Sums {
            commands: 0,
            fragments: 0,
            sum: 0,
        }
    }

    /// Counts a frame.
    fn count(&mut self, sent: &Sent<'_>) {
        match sent.plane {
            Plane::C => self.commands = self.commands.wrapping_add(1),
            Plane::U => self.fragments = self.fragments.wrapping_add(1),
        }
        if let Some(byte) = sent.bytes.last() {
            self.sum = self.sum.wrapping_add(u32::from(*byte));
        }
    }
}

/// Takes all frames of a plan, with the samples of a tone.
pub fn send_all(plan: &mut Plan) -> Sums
    requires { IsPlan plan.old }
{
    let steps = ToneSteps::of(Tone {
        seed: 7,
        amplitude: 1_000,
    });
    let source = Samples::keep(
        |place: RePlace| -> Wide
            requires { place.re < 12 }
            ensures value { result ≡ tone_of steps place }
            ensures narrow { Fits16 result }
        { steps.at(place) },
    );
    let mut sums = Sums::none();
    for _ in 0..u32::MAX {
        match plan.next_frame(&source) {
            Some(sent) => sums.count(&sent),
            None => break,
        }
    }
    sums
}
