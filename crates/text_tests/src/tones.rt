// Samples of tones that were computed by hand from the formula, and a closure over a tone that is kept.
ghost use Rattle.std.specs.Prelude.{◌≡◌, ◌<◌, ◌≤◌};
ghost use Rattle.air_source.specs.Answers.{AnswersBy, Fits16, block_of};
ghost use Rattle.air_source.specs.Kept.{IsKept, closure_of};
ghost use Rattle.air_source.specs.Tones.{tone_of};
ghost use Rattle.air_source.specs.declared.tones.Tone.{Tone};

use air_source::{RePlace, Samples, Tone, ToneSteps, tone};
use bfp_codec::{Iq, Wide};
use fh_base::Slot;

/// The first slot of a frame.
fn slot_of(frame: i64) -> Slot {
    Slot {
        frame,
        subframe: 0,
        slot: 0,
    }
}

/// Element re of PRB 0 in symbol 0 of the first slot of a frame.
fn place(frame: i64, re: u8) -> RePlace
    ensures { result.re ≡ re }
{
    RePlace {
        id: 0,
        slot: slot_of(frame),
        symbol: 0,
        prb: 0,
        re,
    }
}

/// The sample of a tone there, by both forms.
fn both(seed: u32, amplitude: u32, frame: i64, re: u8) -> (Wide, Wide)
    requires low { 1 ≤ amplitude }
    requires high { amplitude ≤ 32768 }
    requires re { re < 12 }
{
    let t = Tone { seed, amplitude };
    (
        tone(t, place(frame, re)),
        ToneSteps::of(t).at(place(frame, re)),
    )
}

/// The samples of PRB 0 in symbol 0, over any closure that answers a tone.
fn first_block<F: Fn(RePlace) -> Wide>(samples: &Samples<F>, slot: Slot) -> [Iq; 12]
    requires { IsKept F.pre F.post samples.now }
    ensures { (t : Tone) → AnswersBy (F.post (closure_of samples.now)) (tone_of t) → result ≡ block_of (tone_of t) 0 slot 0 0 }
{
    samples.block(0, slot, 0, 0)
}

/// The samples of a tone in PRB 0 of symbol 0, through a closure over its steps that is kept.
fn kept_block(t: Tone, slot: Slot) -> [Iq; 12]
    requires low { 1 ≤ t.amplitude }
    requires high { t.amplitude ≤ 32768 }
    ensures { result ≡ block_of (tone_of t) 0 slot 0 0 }
{
    let steps = ToneSteps::of(t);
    let samples = Samples::keep(
        |place: RePlace| -> Wide
            requires { place.re < 12 }
            ensures value { result ≡ tone_of steps place }
            ensures narrow { Fits16 result }
        { steps.at(place) },
    );
    first_block(&samples, slot)
}

/// The twelve samples I, Q that a tone of amplitude 1000 has in PRB 0 of frame 1.
fn wanted(seed: u32) -> [(i16, i16); 12] {
    if seed == 1 {
        [
            (-386, 849),
            (-369, 900),
            (-352, 951),
            (-335, -998),
            (-318, -947),
            (-301, -896),
            (-284, -845),
            (-267, -794),
            (-250, -743),
            (-233, -692),
            (-216, -641),
            (-199, -590),
        ]
    } else {
        [
            (-385, 852),
            (-368, 903),
            (-351, 954),
            (-334, -995),
            (-317, -944),
            (-300, -893),
            (-283, -842),
            (-266, -791),
            (-249, -740),
            (-232, -689),
            (-215, -638),
            (-198, -587),
        ]
    }
}

#[test]
fn all_forms_give_the_samples(rt: HostRuntime) {
    for seed in 1..3u32 {
        let t = Tone {
            seed,
            amplitude: 1000,
        };
        let block = ToneSteps::of(t).block(0, slot_of(1), 0, 0);
        let kept = kept_block(t, slot_of(1));
        let samples = wanted(seed);
        for re in 0..12u8 {
            let (i, q) = samples[re as usize];
            let sample = Wide {
                i: i.into(),
                q: q.into(),
            };
            assert_eq!(rt; both(seed, 1000, 1, re), (sample, sample), "{seed} {re}");
            assert_eq!(rt; block[re as usize], sample, "{seed} {re}");
            assert_eq!(rt; kept[re as usize], Iq { i, q }, "{seed} {re}");
        }
    }
}

#[test]
fn frames_count_by_256_and_amplitudes_have_ends(rt: HostRuntime) {
    // 7 + 613 * 255 is 156,322, and three times that and 7 is 468,973
    let sample = Wide { i: -678, q: -27 };
    assert_eq!(rt; both(7, 1000, -1, 0), (sample, sample));
    assert_eq!(rt; both(7, 1000, 255, 0), (sample, sample));
    // the number of element 1 of frame 0 is 17, and 58 is three times that and 7
    let least = Wide { i: 0, q: -1 };
    assert_eq!(rt; both(0, 1, 0, 1), (least, least));
    // 3 * 65,535 + 7 is 196,612, which is 4 more than three times 65,536
    let greatest = Wide {
        i: 32_767,
        q: -32_764,
    };
    assert_eq!(rt; both(65_535, 32_768, 0, 0), (greatest, greatest));
}
