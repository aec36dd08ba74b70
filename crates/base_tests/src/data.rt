// Messages written out by hand from the layout tables, and a caller that feeds a whole message.
ghost use Rattle.std.specs.Prelude.{◌<◌, ◌≤◌, length};
ghost use Rattle.bfp_codec.specs.Layout.{HasWidth};

use bfp_codec::{Format, Method, Wide};
use fh_base::Shape;
use std::process::Abort;
use uplane_sections::{
    UFeed, UHead, URefusal, URun, USection, UWalker, UWhy, put_head, put_section, read_head,
};

/// 14 symbols a slot, two slots a subframe.
const SHAPE: Shape = Shape {
    symbols: 14,
    slots: 2,
};

const STATIC: Format = Format {
    dynamic: false,
    method: Method::Plain,
};

const DYNAMIC: Format = Format {
    dynamic: true,
    method: Method::Plain,
};

/// Two sections, each of one PRB with the samples (k, -k): section 1 on PRB 1 of symbol 0, and
/// section 2 with symInc on PRB 0.
const TWO: [u8; 108] = [
    0x90, 0x01, 0x00, 0x00, 0x00, 0x10, 0x01, 0x01, 0x00, 0x00, 0x00, 0x00, 0x00, 0x01, 0xff, 0xff,
    0x00, 0x02, 0xff, 0xfe, 0x00, 0x03, 0xff, 0xfd, 0x00, 0x04, 0xff, 0xfc, 0x00, 0x05, 0xff, 0xfb,
    0x00, 0x06, 0xff, 0xfa, 0x00, 0x07, 0xff, 0xf9, 0x00, 0x08, 0xff, 0xf8, 0x00, 0x09, 0xff, 0xf7,
    0x00, 0x0a, 0xff, 0xf6, 0x00, 0x0b, 0xff, 0xf5, 0x00, 0x24, 0x00, 0x01, 0x00, 0x00, 0x00, 0x00,
    0x00, 0x01, 0xff, 0xff, 0x00, 0x02, 0xff, 0xfe, 0x00, 0x03, 0xff, 0xfd, 0x00, 0x04, 0xff, 0xfc,
    0x00, 0x05, 0xff, 0xfb, 0x00, 0x06, 0xff, 0xfa, 0x00, 0x07, 0xff, 0xf9, 0x00, 0x08, 0xff, 0xf8,
    0x00, 0x09, 0xff, 0xf7, 0x00, 0x0a, 0xff, 0xf6, 0x00, 0x0b, 0xff, 0xf5,
];

/// One section of a dynamic format, packed by 9 bits with exponent 2.
const NINE: [u8; 38] = [
    0x90, 0x01, 0x00, 0x00, 0x00, 0x10, 0x00, 0x01, 0x91, 0x00, 0x02, 0x7d, 0x40, 0, 0, 0, 0, 0, 0,
    0, 0, 0, 0, 0, 0, 0, 0, 0, 0, 0, 0, 0, 0, 0, 0, 0, 0, 0,
];

const HEAD: UHead = UHead {
    down: true,
    filter: 0,
    frame_id: 1,
    subframe: 0,
    slot: 0,
    symbol: 0,
};

/// The first 6 things that a message tells, and its first fault.
#[derive(Clone, Copy, Debug, PartialEq, Eq)]
struct Heard {
    told: [UFeed; 6],
    end: Result<(), URefusal>,
}

/// What is told of a message on a carrier of so many PRBs, which is received in two pieces cut at `cut`,
/// and each of them in pieces of at most `most` bytes.
fn walk(message: &[u8], format: Format, prbs: u16, cut: usize, most: usize) -> Heard
    requires width { HasWidth format.method }
    requires most { 0 < most }
{
    let mut walker = UWalker::new(format, prbs, SHAPE);
    let mut told = [UFeed::More; 6];
    let mut count = 0;
    let mut at = 0;
    while at < message.len() {
        let stop = if at < cut && cut < message.len() {
            cut
        } else {
            message.len()
        };
        let len = most.min(stop - at);
        let step = walker.feed(&message[at..at + len]);
        if let UFeed::Refused(refusal) = step.what {
            let end = Err(refusal);
            return Heard { told, end };
        }
        if step.what != UFeed::More && count < 6 {
            told[count] = step.what;
            count += 1;
        }
        at += step.used;
    }
    let end = walker.finish();
    Heard { told, end }
}

/// A message in one piece.
fn whole(message: &[u8], format: Format, prbs: u16) -> Heard
    requires { HasWidth format.method }
{
    walk(message, format, prbs, 0, 108)
}

fn rising() -> [Wide; 12] {
    let mut samples = [Wide { i: 0, q: 0 }; 12];
    for k in 0..12 {
        samples[k] = Wide {
            i: k as i32,
            q: -(k as i32),
        };
    }
    samples
}

/// The first fault of a message that has one.
fn is_refused(rt: &impl Abort, walk: Heard, place: usize, why: UWhy) {
    assert_eq!(rt; walk.end, Err(URefusal { place, why }));
}

#[test]
fn two_sections(rt: HostRuntime) {
    let walk = whole(&TWO, STATIC, 106);
    let first = USection {
        id: 1,
        sym_inc: false,
        symbol: 0,
        start_prb: 1,
        num_prb: 1,
        method: Method::Plain,
    };
    let second = USection {
        id: 2,
        sym_inc: true,
        symbol: 1,
        start_prb: 0,
        num_prb: 1,
        method: Method::Plain,
    };
    let samples = rising();
    assert_eq!(rt; walk.end, Ok(()));
    assert_eq!(rt; walk.told[0], UFeed::Head(HEAD));
    assert_eq!(rt; walk.told[1], UFeed::Section(first));
    assert_eq!(rt; walk.told[2], UFeed::Block { prb: 1, samples });
    assert_eq!(rt; walk.told[3], UFeed::Section(second));
    assert_eq!(rt; walk.told[4], UFeed::Block { prb: 0, samples });
    assert_eq!(rt; walk.told[5], UFeed::More);

    let mut written = [0xff; 6];
    assert_eq!(rt; put_head(&HEAD).as_slice(), &TWO[..4]);
    assert_eq!(rt; put_section(&second, STATIC, &mut written), 4);
    assert_eq!(rt; written, [0x00, 0x24, 0x00, 0x01, 0xff, 0xff]);
}

#[test]
fn nine_bits(rt: HostRuntime) {
    let walk = whole(&NINE, DYNAMIC, 106);
    let section = USection {
        id: 1,
        sym_inc: false,
        symbol: 0,
        start_prb: 0,
        num_prb: 1,
        method: Method::Bfp(9),
    };
    let mut samples = [Wide { i: 0, q: 0 }; 12];
    samples[0] = Wide { i: 1000, q: -1024 };
    assert_eq!(rt; walk.end, Ok(()));
    assert_eq!(rt; walk.told[1], UFeed::Section(section));
    assert_eq!(rt; walk.told[2], UFeed::Block { prb: 0, samples });

    let mut written = [0xff; 6];
    assert_eq!(rt; put_section(&section, DYNAMIC, &mut written), 6);
    assert_eq!(rt; written.as_slice(), &NINE[4..10]);
    let sixteen = USection {
        method: Method::Bfp(16),
        ..section
    };
    assert_eq!(rt; put_section(&sixteen, DYNAMIC, &mut written), 6);
    assert_eq!(rt; written, [0x00, 0x10, 0x00, 0x01, 0x01, 0x00]);

    let mut unknown = NINE;
    unknown[8] = 0x92;
    is_refused(&rt, whole(&unknown, DYNAMIC, 106), 4, UWhy::Method);
    // The PRBs are tested before the method.
    unknown[6] = 0x6a;
    is_refused(&rt, whole(&unknown, DYNAMIC, 106), 4, UWhy::PrbRange);
}

#[test]
fn all_prbs_and_none(rt: HostRuntime) {
    // numPrbu 0: PRBs 0 and 1 of two, whatever startPrbu.
    let mut message = [0; 104];
    message[..4].copy_from_slice(&TWO[..4]);
    message[4..8].copy_from_slice(&[0x00, 0x10, 0x07, 0x00]);
    message[8..56].copy_from_slice(&TWO[8..56]);
    let samples = rising();
    let walk = whole(&message, STATIC, 2);
    assert_eq!(rt; walk.end, Ok(()));
    assert_eq!(rt; walk.told[2], UFeed::Block { prb: 0, samples });
    assert_eq!(rt;
        walk.told[3],
        UFeed::Block {
            prb: 1,
            samples: [Wide { i: 0, q: 0 }; 12]
        }
    );
    assert_eq!(rt; walk.told[4], UFeed::More);

    let none = whole(&message[..4], STATIC, 2);
    assert_eq!(rt; none.end, Ok(()));
    assert_eq!(rt; none.told[1], UFeed::More);
}

#[test]
fn refuses_at_the_place(rt: HostRuntime) {
    is_refused(&rt, whole(&TWO[..3], STATIC, 106), 3, UWhy::Truncated);
    is_refused(&rt, whole(&TWO[..59], STATIC, 106), 59, UWhy::Truncated);
    is_refused(&rt, whole(&TWO[..107], STATIC, 106), 107, UWhy::Truncated);
    is_refused(&rt, whole(&NINE[..9], DYNAMIC, 106), 9, UWhy::Truncated);
    let mut message = TWO;
    message[57] = 0x2c;
    is_refused(&rt, whole(&message, STATIC, 106), 56, UWhy::EveryOtherRb);
    message[3] = 0x0d;
    message[57] = 0x24;
    is_refused(&rt, whole(&message, STATIC, 106), 56, UWhy::SymbolRange);
    message[3] = 0x0e;
    is_refused(&rt, whole(&message, STATIC, 106), 0, UWhy::SymbolRange);
    message[3] = 0x80;
    is_refused(&rt, whole(&message, STATIC, 106), 0, UWhy::SlotRange);
    message[0] = 0xa0;
    is_refused(&rt, whole(&message, STATIC, 106), 0, UWhy::Version);
}

#[test]
fn tells_the_same_in_any_pieces(rt: HostRuntime) {
    let two = whole(&TWO, STATIC, 106);
    for cut in 1..108 {
        assert_eq!(rt; walk(&TWO, STATIC, 106, cut, 108), two);
    }
    assert_eq!(rt; walk(&TWO, STATIC, 106, 0, 1), two);
    let nine = whole(&NINE, DYNAMIC, 106);
    for cut in 1..38 {
        assert_eq!(rt; walk(&NINE, DYNAMIC, 106, cut, 38), nine);
    }
    assert_eq!(rt; walk(&NINE, DYNAMIC, 106, 0, 1), nine);
}

#[test]
fn passes_and_lends_runs(rt: HostRuntime) {
    let mut walker = UWalker::new(STATIC, 106, SHAPE);
    let none = URun {
        method: Method::Plain,
        prb: 0,
        count: 0,
        used: 0,
    };
    assert_eq!(rt; walker.feed(&TWO).what, UFeed::Head(HEAD));
    assert_eq!(rt; walker.run(&TWO[4..]), none);
    let _first = walker.feed(&TWO[4..]);
    let run = URun {
        method: Method::Plain,
        prb: 1,
        count: 1,
        used: 48,
    };
    assert_eq!(rt; walker.run(&TWO[8..]), run);
    // Into the PRB of the second section, which is cut there.
    walker.pass(&TWO[56..70]);
    assert_eq!(rt; walker.run(&TWO[70..]), none);
    walker.pass(&TWO[70..]);
    assert_eq!(rt; walker.finish(), Ok(()));

    assert_eq!(rt; read_head([0x90, 0x01, 0, 0]), HEAD);
    assert_eq!(rt; UWhy::PrbRange.name(), "PrbRange");
}
