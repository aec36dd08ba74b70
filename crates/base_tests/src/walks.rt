// Messages written out by hand from the layout tables, in every cut that an assembly can hold.
ghost use Rattle.std.specs.Prelude.{◌≡◌, ◌<◌};
ghost use Rattle.bfp_codec.specs.Layout.{HasWidth};
ghost use Rattle.ecpri_fragments.specs.Assemblies.{endpoints_of};

use bfp_codec::{Format, Method, Wide};
use ecpri_fragments::{Assembly, Lease, SeqField, Taken};
use fh_base::{Shape, Ticks};
use std::test::Fail;
use uplane_messages::{DataWalk, tested};
use uplane_sections::{UFeed, UHead, URefusal, USection, UWhy};

/// 14 symbols a slot, two slots a subframe.
const SHAPE: Shape = Shape {
    symbols: 14,
    slots: 2,
};

const STATIC: Format = Format {
    dynamic: false,
    method: Method::Plain,
};

const DYNAMIC: Format = Format {
    dynamic: true,
    method: Method::Plain,
};

/// Two sections, each of one PRB with the samples (k, -k): section 1 on PRB 0 of symbol 0, and
/// section 2 with symInc on PRB 0.
const TWO: [u8; 108] = [
    0x90, 0x01, 0x00, 0x00, 0x00, 0x10, 0x00, 0x01, 0x00, 0x00, 0x00, 0x00, 0x00, 0x01, 0xff, 0xff,
    0x00, 0x02, 0xff, 0xfe, 0x00, 0x03, 0xff, 0xfd, 0x00, 0x04, 0xff, 0xfc, 0x00, 0x05, 0xff, 0xfb,
    0x00, 0x06, 0xff, 0xfa, 0x00, 0x07, 0xff, 0xf9, 0x00, 0x08, 0xff, 0xf8, 0x00, 0x09, 0xff, 0xf7,
    0x00, 0x0a, 0xff, 0xf6, 0x00, 0x0b, 0xff, 0xf5, 0x00, 0x24, 0x00, 0x01, 0x00, 0x00, 0x00, 0x00,
    0x00, 0x01, 0xff, 0xff, 0x00, 0x02, 0xff, 0xfe, 0x00, 0x03, 0xff, 0xfd, 0x00, 0x04, 0xff, 0xfc,
    0x00, 0x05, 0xff, 0xfb, 0x00, 0x06, 0xff, 0xfa, 0x00, 0x07, 0xff, 0xf9, 0x00, 0x08, 0xff, 0xf8,
    0x00, 0x09, 0xff, 0xf7, 0x00, 0x0a, 0xff, 0xf6, 0x00, 0x0b, 0xff, 0xf5,
];

const HEAD: UHead = UHead {
    down: true,
    filter: 0,
    frame_id: 1,
    subframe: 0,
    slot: 0,
    symbol: 0,
};

/// The first 6 items of a walk, the refusal after them, and the test of the same message.
#[derive(Clone, Copy, Debug, PartialEq, Eq)]
struct Outcome {
    items: [UFeed; 6],
    refusal: Option<URefusal>,
    tested: Result<UHead, URefusal>,
    missing: u16,
}

/// How many blocks are missing at the end of a message that is not refused, and 0 of another. Each
/// block has the number that its section and the blocks before it say.
fn missing(lease: &Lease<'_>, format: Format) -> u16
    requires { HasWidth format.method }
    ensures { result ≡ 0 }
{
    if tested(lease, format, 106, SHAPE).is_err() {
        return 0;
    }
    let mut walk = DataWalk::new(lease, format, 106, SHAPE);
    walk.next();
    let mut next: u16 = 0;
    let mut left: u16 = 0;
    while let Some(what) = walk.next() {
        match what {
            UFeed::Section(s) if s.num_prb == 0 => {
                next = 0;
                left = 106;
            }
            UFeed::Section(s) => {
                next = s.start_prb;
                left = s.num_prb as u16;
            }
            UFeed::Block { prb, .. } => {
                prove!(prb == next);
                next += 1;
                left -= 1;
            }
            _ => unreachable!(),
        }
    }
    left
}

fn heard(lease: &Lease<'_>, format: Format) -> Outcome
    requires { HasWidth format.method }
{
    let mut walk = DataWalk::new(lease, format, 106, SHAPE);
    let mut items = [UFeed::More; 6];
    let mut count = 0;
    while let Some(what) = walk.next() {
        if count < 6 {
            items[count] = what;
            count += 1;
        }
    }
    Outcome {
        items,
        refusal: walk.refusal(),
        tested: tested(lease, format, 106, SHAPE),
        missing: missing(lease, format),
    }
}

/// Takes a fragment; what is heard of the message that it makes whole.
fn take(assembly: &mut Assembly, seq: SeqField, bytes: &[u8], format: Format) -> Option<Outcome>
    requires endpoint { 0 < endpoints_of assembly.old }
    requires sub { seq.sub < 128 }
    requires width { HasWidth format.method }
    ensures { endpoints_of assembly.new ≡ endpoints_of assembly.old }
{
    match assembly.take(0, Ticks(0), seq, bytes) {
        Taken::Whole(lease) => Some(heard(&lease, format)),
        _ => None,
    }
}

fn field(seq: u8, last: bool, sub: u8) -> SeqField
    ensures { result ≡ record { seq = seq; last = last; sub = sub } }
{
    SeqField { seq, last, sub }
}

fn rising() -> [Wide; 12] {
    let mut samples = [Wide { i: 0, q: 0 }; 12];
    for k in 0..12 {
        samples[k] = Wide {
            i: k as i32,
            q: -(k as i32),
        };
    }
    samples
}

#[test]
fn tells_the_same_in_any_pieces(rt: HostRuntime) -> Result<(), Fail> {
    let samples = rising();
    let first = USection {
        id: 1,
        sym_inc: false,
        symbol: 0,
        start_prb: 0,
        num_prb: 1,
        method: Method::Plain,
    };
    let second = USection {
        id: 2,
        sym_inc: true,
        symbol: 1,
        ..first
    };
    let expected = Outcome {
        items: [
            UFeed::Head(HEAD),
            UFeed::Section(first),
            UFeed::Block { prb: 0, samples },
            UFeed::Section(second),
            UFeed::Block { prb: 0, samples },
            UFeed::More,
        ],
        refusal: None,
        tested: Ok(HEAD),
        missing: 0,
    };
    let mut assembly = Assembly::make(rt.alloc(), 1, Ticks(10))?;
    // 0 and 108 cut off an empty piece.
    for cut in 0..109 {
        let seq = cut as u8;
        let none = take(&mut assembly, field(seq, false, 0), &TWO[..cut], STATIC);
        let two = take(&mut assembly, field(seq, true, 1), &TWO[cut..], STATIC);
        assert_eq!(rt; none, None);
        assert_eq!(rt; two, Some(expected));
    }
    for k in 0..107 {
        let none = take(
            &mut assembly,
            field(200, false, k as u8),
            &TWO[k..k + 1],
            STATIC,
        );
        assert_eq!(rt; none, None);
    }
    let bytes = take(&mut assembly, field(200, true, 107), &TWO[107..], STATIC);
    assert_eq!(rt; bytes, Some(expected));
    Ok(())
}

#[test]
fn refuses_another_method(rt: HostRuntime) -> Result<(), Fail> {
    // Two sections of a dynamic format: the first has 9 bits, the second names the method 2.
    let mut message = [0; 72];
    message[..10].copy_from_slice(&[0x90, 0x01, 0, 0, 0x00, 0x10, 0x00, 0x01, 0x91, 0]);
    message[38..44].copy_from_slice(&[0x00, 0x20, 0x00, 0x01, 0x92, 0]);
    let section = USection {
        id: 1,
        sym_inc: false,
        symbol: 0,
        start_prb: 0,
        num_prb: 1,
        method: Method::Bfp(9),
    };
    let refusal = URefusal {
        place: 38,
        why: UWhy::Method,
    };
    let expected = Outcome {
        items: [
            UFeed::Head(HEAD),
            UFeed::Section(section),
            UFeed::Block {
                prb: 0,
                samples: [Wide { i: 0, q: 0 }; 12],
            },
            UFeed::More,
            UFeed::More,
            UFeed::More,
        ],
        refusal: Some(refusal),
        tested: Err(refusal),
        missing: 0,
    };
    let mut assembly = Assembly::make(rt.alloc(), 1, Ticks(10))?;
    for cut in 0..73 {
        let seq = cut as u8;
        let none = take(
            &mut assembly,
            field(seq, false, 0),
            &message[..cut],
            DYNAMIC,
        );
        let two = take(&mut assembly, field(seq, true, 1), &message[cut..], DYNAMIC);
        assert_eq!(rt; none, None);
        assert_eq!(rt; two, Some(expected));
    }

    // A message with no byte, and one whose second section is cut short.
    let empty = take(&mut assembly, field(200, true, 0), &[], STATIC);
    let short = take(&mut assembly, field(201, true, 0), &TWO[..107], STATIC);
    let at_0 = Err(URefusal {
        place: 0,
        why: UWhy::Truncated,
    });
    let at_107 = Err(URefusal {
        place: 107,
        why: UWhy::Truncated,
    });
    assert_eq!(rt; empty.map(|h| h.tested), Some(at_0));
    assert_eq!(rt; short.map(|h| h.tested), Some(at_107));
    Ok(())
}
