// One message of two sections in every cut, at cells that two commands claim. One endpoint of 4 PRBs at 30 kHz, packed by 8 bits, so
// each sample is a byte times the power of two that its PRB's exponent says.
ghost use Rattle.std.specs.Prelude.{◌≡◌, ◌<◌, ◌≤◌, List, [], ◌∷◌, IfOk, length};
ghost use Rattle.bfp_codec.specs.Layout.{HasWidth};
ghost use Rattle.fh_base.specs.Numbering.{slots_of, symbols_of};
ghost use Rattle.window_config.specs.Configs.{IsConfig};
ghost use Rattle.unit_cells.specs.Cells.{endpoints_of};

use crate::memory_samples::{accept, block_at, claim_at, config, endpoint, section};
use crate::receiving::{counted, field, receive};
use air_source::Side;
use bfp_codec::{Method, Wide};
use cplane_sections::CSection;
use eaxc_map::Widths;
use ecpri_fragments::Assembly;
use fault_counters::Counters;
use fh_base::{NoMemory, Numerology, of_ns, shape};
use std::alloc::Global;
use std::process::Abort;
use std::test::Fail;
use unit_cells::UnitCells;
use unit_model::Block;
use window_config::{Config, EndpointConfig};

/// Section 1 on PRBs 0 and 1 of symbol 0, and section 2 with symInc on PRBs 2 and 3. Each PRB has its exponent, and then pairs of an I,
/// which goes on from the PRB before, and the Q that is -1 less it.
const MESSAGE: [u8; 112] = [
    0x90, 0x01, 0x00, 0x00, 0x00, 0x10, 0x00, 0x02, 0x00, 0x00, 0xff, 0x01, 0xfe, 0x02, 0xfd, 0x03,
    0xfc, 0x04, 0xfb, 0x05, 0xfa, 0x06, 0xf9, 0x07, 0xf8, 0x08, 0xf7, 0x09, 0xf6, 0x0a, 0xf5, 0x0b,
    0xf4, 0x01, 0x0c, 0xf3, 0x0d, 0xf2, 0x0e, 0xf1, 0x0f, 0xf0, 0x10, 0xef, 0x11, 0xee, 0x12, 0xed,
    0x13, 0xec, 0x14, 0xeb, 0x15, 0xea, 0x16, 0xe9, 0x17, 0xe8, 0x00, 0x24, 0x02, 0x02, 0x02, 0x18,
    0xe7, 0x19, 0xe6, 0x1a, 0xe5, 0x1b, 0xe4, 0x1c, 0xe3, 0x1d, 0xe2, 0x1e, 0xe1, 0x1f, 0xe0, 0x20,
    0xdf, 0x21, 0xde, 0x22, 0xdd, 0x23, 0xdc, 0x03, 0x24, 0xdb, 0x25, 0xda, 0x26, 0xd9, 0x27, 0xd8,
    0x28, 0xd7, 0x29, 0xd6, 0x2a, 0xd5, 0x2b, 0xd4, 0x2c, 0xd3, 0x2d, 0xd2, 0x2e, 0xd1, 0x2f, 0xd0,
];

/// What became of a message: what was counted of sections and messages, and of each cell of symbols 0 and 1, symbol by symbol, the
/// section that claims it and its block.
#[derive(Clone, Copy, Debug, PartialEq, Eq)]
struct Outcome {
    counts: [u64; 6],
    claims: [u16; 8],
    blocks: [Option<Block>; 8],
}

/// Section 1 claims PRBs 0 and 1 of symbol 0, and section 2 PRBs 2 and 3 of symbols 0 and 1.
const CLAIMS: [u16; 8] = [1, 1, 2, 2, 0, 0, 2, 2];

/// The samples of a PRB with this first I and this power of two.
fn samples(first: i32, power: i32) -> [Wide; 12] {
    let mut samples = [Wide { i: 0, q: 0 }; 12];
    for k in 0..12usize {
        let i = first.wrapping_add(k as i32);
        samples[k] = Wide {
            i: i.wrapping_mul(power),
            q: i.wrapping_add(1).wrapping_mul(power).wrapping_neg(),
        };
    }
    samples
}

/// The blocks that section 1 gives.
fn of_the_first() -> [Option<Block>; 8] {
    let mut blocks = [None; 8];
    blocks[0] = Some(Block {
        id: 1,
        samples: samples(0, 1),
    });
    blocks[1] = Some(Block {
        id: 1,
        samples: samples(12, 2),
    });
    blocks
}

/// The blocks that both sections give.
fn of_both() -> [Option<Block>; 8] {
    let mut blocks = of_the_first();
    blocks[6] = Some(Block {
        id: 2,
        samples: samples(24, 4),
    });
    blocks[7] = Some(Block {
        id: 2,
        samples: samples(36, 8),
    });
    blocks
}

/// Every place after a byte.
fn each_byte() -> [usize; 112] {
    let mut ends = [0; 112];
    for k in 0..112usize {
        ends[k] = k + 1;
    }
    ends
}

/// Cells with these claims.
fn claimed(alloc: Global, config: &Config, e: EndpointConfig) -> Result<UnitCells, NoMemory>
    requires config { IsConfig config.now }
    requires listed { config.now.endpoints ≡ e ∷ [] }
    requires slots { 0 < slots_of e.numerology }
    requires symbols { symbols_of e.numerology ≡ 14 }
    ensures { IfOk result (λ v. endpoints_of v ≡ e ∷ []) }
{
    let mut cells = UnitCells::make(alloc, Side::Ru, config)?;
    let first = CSection {
        num_prb: 2,
        ..section(1, 0, 0xfff, 1)
    };
    let second = CSection {
        num_prb: 2,
        ..section(2, 2, 0xfff, 2)
    };
    accept(&mut cells, e, true, first);
    accept(&mut cells, e, true, second);
    Ok(cells)
}

/// The state of the cells.
fn outcome_of(cells: &UnitCells, counters: &Counters, e: &EndpointConfig) -> Outcome
    requires listed { endpoints_of cells.now ≡ e.now ∷ [] }
    requires slots { 0 < slots_of e.now.numerology }
{
    let mut claims = [0; 8];
    let mut blocks = [None; 8];
    for k in 0..8u8 {
        claims[k as usize] = claim_at(cells, e, k / 4, u16::from(k % 4));
        blocks[k as usize] = block_at(cells, e, k / 4, u16::from(k % 4));
    }
    Outcome {
        counts: counted(counters),
        claims,
        blocks,
    }
}

/// What becomes of a message whose pieces end at these places, and are received so many nanoseconds after 9 ms.
fn taken(
    alloc: Global,
    config: &Config,
    e: EndpointConfig,
    ns: u32,
    message: &[u8],
    ends: &[usize],
) -> Result<Outcome, NoMemory>
    requires config { IsConfig config.now }
    requires listed { config.now.endpoints ≡ e ∷ [] }
    requires width { HasWidth e.format.method }
    requires slots { 0 < slots_of e.numerology }
    requires symbols { symbols_of e.numerology ≡ 14 }
    requires few { length ends.now ≤ 128 }
{
    let mut cells = claimed(alloc, config, e)?;
    let mut assembly = Assembly::make(alloc, 1, of_ns(211_000))?;
    let mut counters = Counters::new();
    let mut start = 0;
    for k in 0..ends.len() {
        let end = ends[k].min(message.len()).max(start);
        let seq = field(0, k + 1 == ends.len(), k as u8);
        let piece = &message[start..end];
        receive(&mut assembly, &mut cells, &mut counters, &e, ns, seq, piece);
        start = end;
    }
    Ok(outcome_of(&cells, &counters, &e))
}

/// Sees that a message has this outcome in every cut into two pieces, and in single bytes. The first cut and the last one cut off an
/// empty piece.
fn see(
    rt: &impl Abort,
    alloc: Global,
    config: &Config,
    e: EndpointConfig,
    ns: u32,
    message: &[u8],
    expected: Outcome,
) -> Result<(), NoMemory>
    requires config { IsConfig config.now }
    requires listed { config.now.endpoints ≡ e ∷ [] }
    requires width { HasWidth e.format.method }
    requires slots { 0 < slots_of e.numerology }
    requires symbols { symbols_of e.numerology ≡ 14 }
{
    for cut in 0..113usize {
        let outcome = taken(alloc, config, e, ns, message, &[cut, 112])?;
        assert_eq!(rt; outcome, expected, "cut at {cut}");
    }
    let bytes = taken(alloc, config, e, ns, message, &each_byte())?;
    assert_eq!(rt; bytes, expected);
    Ok(())
}

/// Both sections are taken, in whichever pieces they are received.
#[test]
fn sections_fill_the_same_cells(rt: HostRuntime) -> Result<(), Fail> {
    let n = Numerology::ordinary(1).expect(&rt, "30 kHz");
    assert!(rt; shape(&n).slots == 2);
    assert!(rt; shape(&n).symbols == 14);
    let e = endpoint(n, Method::Bfp(8));
    let config = config(e, Widths::new(4, 4, 4, 4)?);
    let alloc = rt.alloc();
    let expected = Outcome {
        counts: [2, 0, 0, 0, 0, 0],
        claims: CLAIMS,
        blocks: of_both(),
    };
    see(&rt, alloc, &config, e, 700_000, &MESSAGE, expected)?;
    // Each PRB is cut in its middle, so that none is whole in any piece.
    let ends = [20, 45, 75, 100, 112];
    let halves = taken(alloc, &config, e, 700_000, &MESSAGE, &ends)?;
    assert_eq!(rt; halves, expected);
    Ok(())
}

/// The message is received 310 us before symbol 0, and 346.2 us before symbol 1: the second section is early, in whichever pieces
/// it is received.
#[test]
fn each_section_has_its_own_class(rt: HostRuntime) -> Result<(), Fail> {
    let n = Numerology::ordinary(1).expect(&rt, "30 kHz");
    assert!(rt; shape(&n).slots == 2);
    assert!(rt; shape(&n).symbols == 14);
    let e = endpoint(n, Method::Bfp(8));
    let config = config(e, Widths::new(4, 4, 4, 4)?);
    let expected = Outcome {
        counts: [1, 0, 1, 0, 0, 0],
        claims: CLAIMS,
        blocks: of_the_first(),
    };
    see(&rt, rt.alloc(), &config, e, 690_000, &MESSAGE, expected)?;
    Ok(())
}

/// A message that ends a byte early, and one whose second section has every other PRB (rb 1): each is refused in whichever pieces it
/// is received, and no cell has a block.
#[test]
fn a_refused_message_fills_no_cell(rt: HostRuntime) -> Result<(), Fail> {
    let n = Numerology::ordinary(1).expect(&rt, "30 kHz");
    assert!(rt; shape(&n).slots == 2);
    assert!(rt; shape(&n).symbols == 14);
    let e = endpoint(n, Method::Bfp(8));
    let config = config(e, Widths::new(4, 4, 4, 4)?);
    let alloc = rt.alloc();
    let expected = Outcome {
        counts: [0, 0, 0, 0, 1, 0],
        claims: CLAIMS,
        blocks: [None; 8],
    };
    see(&rt, alloc, &config, e, 700_000, &MESSAGE[..111], expected)?;
    let mut other_rb = MESSAGE;
    other_rb[59] = 0x2c;
    see(&rt, alloc, &config, e, 700_000, &other_rb, expected)?;
    Ok(())
}
