// Blocks of a tone, and lines of cells.
ghost use Rattle.std.specs.Prelude.{◌≡◌, ◌<◌, ◌≤◌};
ghost use Rattle.air_source.specs.Answers.{Fits16};
ghost use Rattle.air_source.specs.Kept.{IsKept};
ghost use Rattle.air_source.specs.Tones.{tone_of};

use crate::words::Ending;
use air_source::{AirCell, RePlace, Samples, Side, Tone, ToneSteps, put_cell};
use bfp_codec::Wide;
use fh_base::{FRAME, Line, Slot, Ticks};
use std::io;

const SLOT: Slot = Slot {
    frame: 1,
    subframe: 3,
    slot: 1,
};

/// A sample of a block as a number to be added.
fn number_of(sample: Wide) -> u64 {
    (i64::from(sample.q) + 3 * i64::from(sample.i) + 400_000).cast_unsigned()
}

/// A sample of each block of the tone, added up.
fn tones(tone: Tone, count: u64) -> u64
    requires low { 1 ≤ tone.amplitude }
    requires high { tone.amplitude ≤ 32768 }
{
    let steps = ToneSteps::of(tone);
    let mut sum: u64 = 0;
    for k in 0..count {
        let block = steps.block(2, SLOT, 5, (k % 106) as u16);
        sum = sum.wrapping_add(number_of(block[(k % 12) as usize]));
    }
    sum
}

/// The same through a closure that is kept.
fn blocks_of<F: Fn(RePlace) -> Wide>(samples: &Samples<F>, count: u64) -> u64
    requires { IsKept F.pre F.post samples.now }
{
    let mut sum: u64 = 0;
    for k in 0..count {
        let block = samples.block(2, SLOT, 5, (k % 106) as u16);
        let sample = block[(k % 12) as usize];
        sum = sum.wrapping_add(number_of(Wide {
            i: sample.i as i32,
            q: sample.q as i32,
        }));
    }
    sum
}

fn kept(tone: Tone, count: u64) -> u64
    requires low { 1 ≤ tone.amplitude }
    requires high { tone.amplitude ≤ 32768 }
{
    let steps = ToneSteps::of(tone);
    let samples = Samples::keep(
        |place: RePlace| -> Wide
            requires { place.re < 12 }
            ensures value { result ≡ tone_of steps place }
            ensures narrow { Fits16 result }
        { steps.at(place) },
    );
    blocks_of(&samples, count)
}

/// The blocks that take turns in the lines.
fn blocks(tone: Tone) -> [[Wide; 12]; 64]
    requires low { 1 ≤ tone.amplitude }
    requires high { tone.amplitude ≤ 32768 }
{
    let steps = ToneSteps::of(tone);
    let mut blocks = [[Wide { i: 0, q: 0 }; 12]; 64];
    for prb in 0..64u16 {
        blocks[prb as usize] = steps.block(2, SLOT, 5, prb);
    }
    blocks
}

/// A byte of a line, 0 where it has none.
fn byte_of(text: &[u8], k: u64) -> u64 {
    if text.is_empty() {
        0
    } else {
        text[(k % text.len() as u64) as usize] as u64
    }
}

/// A byte of each line, added up.
fn lines(tone: Tone, count: u64) -> u64
    requires low { 1 ≤ tone.amplitude }
    requires high { tone.amplitude ≤ 32768 }
{
    let blocks = blocks(tone);
    let mut line = Line::new();
    let mut sum: u64 = 0;
    for k in 0..count {
        let cell = AirCell {
            side: Side::Ru,
            at: Ticks(FRAME.wrapping_add(k.cast_signed())),
            id: 2,
            slot: SLOT,
            symbol: 5,
            prb: (k % 106) as u16,
            section: 17,
            mask: 0xfff,
            block: Some(blocks[(k % 64) as usize]),
        };
        put_cell(&cell, &mut line);
        sum = sum.wrapping_add(byte_of(line.as_slice(), k));
    }
    sum
}

/// What is made so many times.
#[derive(Clone, Copy)]
enum Work {
    /// A block of the tone.
    Tone,
    /// The same, through a closure that is kept.
    Kept,
    /// A cell's line.
    Line,
}

impl Work {
    fn of(word: &str) -> Option<Work> {
        match word {
            "tone" => Some(Work::Tone),
            "kept" => Some(Work::Kept),
            "line" => Some(Work::Line),
            _ => None,
        }
    }

    fn name(self) -> &'static str {
        match self {
            Work::Tone => "tone",
            Work::Kept => "kept",
            Work::Line => "line",
        }
    }
}

/// What is made how many times, with a tone of this amplitude.
#[derive(Clone, Copy)]
struct Load {
    work: Work,
    count: u64,
    amplitude: u32,
    ghost low: { 1 ≤ amplitude },
    ghost high: { amplitude ≤ 32768 },
}

impl Load {
    fn of(words: &[&str]) -> Option<Load> {
        let [work, count, amplitude] = *words else {
            return None;
        };
        let amplitude = amplitude.parse::<u32>().ok()?;
        if amplitude < 1 || amplitude > 32_768 {
            return None;
        }
        Some(Load {
            work: Work::of(work)?,
            count: count.parse::<u64>().ok()?,
            amplitude,
        })
    }

    fn sum(&self) -> u64 {
        let tone = Tone {
            seed: 7,
            amplitude: self.amplitude,
        };
        match self.work {
            Work::Tone => tones(tone, self.count),
            Work::Kept => kept(tone, self.count),
            Work::Line => lines(tone, self.count),
        }
    }
}

/// `tone|kept|line COUNT AMPLITUDE`: makes COUNT blocks of a tone, or COUNT lines of cells with its samples, and prints a checksum.
pub fn run(rt: &impl Print, words: &[&str]) -> io::Result<Ending> {
    let Some(load) = Load::of(words) else {
        return Ok(Ending::BadWords);
    };
    let sum = load.sum();
    println!(rt; "{} {} {sum}", load.work.name(), load.count)?;
    Ok(Ending::Done)
}
