// Frames written out by hand from the layout tables.
ghost use Rattle.std.specs.Prelude.{◌≡◌, ◌<◌, ◌≤◌};
ghost use Rattle.cplane_sections.specs.Message.{HeadFits, SectionFits as CommandFits};

use bfp_codec::{Format, Iq, Method};
use cplane_sections::{CBody, CHead, CSection};
use ecpri_fragments::SeqField;
use frame_bytes::{
    Carrier, DataMessage, DataSection, Span, command, message_size, piece, section_size,
};
use std::process::Abort;
use uplane_sections::UHead;

const WHOLE: SeqField = SeqField {
    seq: 0,
    last: true,
    sub: 0,
};

const DOWN: UHead = UHead {
    down: true,
    filter: 0,
    frame_id: 1,
    subframe: 0,
    slot: 0,
    symbol: 0,
};

const ONE: [DataSection; 1] = [DataSection {
    id: 1,
    start_prb: 0,
    num_prb: 1,
}];

/// A header of frame 1, downlink, with one section.
fn head(body: CBody) -> CHead
    ensures { HeadFits result }
{
    CHead {
        down: true,
        filter: 0,
        frame_id: 1,
        subframe: 0,
        slot: 0,
        start_symbol: 0,
        count: 1,
        body,
    }
}

/// Section 1 on one PRB and one symbol.
fn section() -> CSection
    ensures { CommandFits result }
{
    CSection {
        id: 1,
        sym_inc: false,
        symbol: 0,
        start_prb: 0,
        num_prb: 1,
        mask: 0xfff,
        num_symbol: 1,
        beam: 0,
        freq_offset: 0,
    }
}

/// The samples (k, -k).
fn rising() -> [Iq; 12] {
    let mut block = [Iq { i: 0, q: 0 }; 12];
    for k in 0..12usize {
        block[k] = Iq {
            i: k as i16,
            q: -(k as i16),
        };
    }
    block
}

/// (1000, -1023), and then zeros.
fn peak() -> [Iq; 12] {
    let mut block = [Iq { i: 0, q: 0 }; 12];
    block[0] = Iq { i: 1000, q: -1023 };
    block
}

fn carrier(dynamic: bool, method: Method, prbs: u16) -> Carrier
    ensures dynamic { result.format.dynamic ≡ dynamic }
    ensures method { result.format.method ≡ method }
    ensures prbs { result.prbs ≡ prbs }
{
    Carrier {
        format: Format { dynamic, method },
        prbs,
    }
}

/// The command of this header and section is this frame, and the bytes after it stay.
fn is_sent(rt: &impl Abort, pc: u16, seq: u8, head: &CHead, section: &CSection, wanted: &[u8])
    requires head_fits { HeadFits head.now }
    requires section_fits { CommandFits section.now }
{
    let mut room = [0xee; 32];
    let size = command(pc, seq, head, section, &mut room).min(32);
    assert_eq!(rt; &room[..size], wanted);
    assert_eq!(rt; room[size..], [0xee; 32][size..]);
}

#[test]
fn commands_of_each_type(rt: HostRuntime) {
    let normal = head(CBody::Normal { comp: 0 });
    let usual = CSection {
        num_prb: 106,
        ..section()
    };
    let wanted = [
        0x10, 0x02, 0x00, 0x14, 0x00, 0x00, 0x00, 0x80, 0x90, 0x01, 0x00, 0x00, 0x01, 0x01, 0x00,
        0x00, 0x00, 0x10, 0x00, 0x6a, 0xff, 0xf1, 0x00, 0x00,
    ];
    is_sent(&rt, 0, 0, &normal, &usual, &wanted);
    let body = CBody::Idle {
        time_offset: 0x0102,
        structure: 0x0c,
        cp_length: 0x0c60,
    };
    let idle = CSection {
        id: 0xabc,
        start_prb: 0x3ff,
        num_prb: 0,
        mask: 0xf0f,
        num_symbol: 14,
        beam: 0x7fff,
        ..section()
    };
    let wanted = [
        0x10, 0x02, 0x00, 0x18, 0x12, 0x34, 0xff, 0x80, 0x90, 0x01, 0x00, 0x00, 0x01, 0x00, 0x01,
        0x02, 0x0c, 0x0c, 0x60, 0x00, 0xab, 0xc3, 0xff, 0x00, 0xf0, 0xfe, 0x00, 0x00,
    ];
    is_sent(&rt, 0x1234, 255, &head(body), &idle, &wanted);
    let offset = CHead {
        down: false,
        filter: 1,
        frame_id: 0xff,
        subframe: 9,
        slot: 1,
        start_symbol: 13,
        ..head(CBody::Offset {
            time_offset: 1,
            structure: 0x0e,
            cp_length: 2,
            comp: 0x91,
        })
    };
    let section = CSection {
        beam: 0x7fff,
        freq_offset: -2,
        ..section()
    };
    let wanted = [
        0x10, 0x02, 0x00, 0x1c, 0x00, 0x01, 0x07, 0x80, 0x11, 0xff, 0x90, 0x4d, 0x01, 0x03, 0x00,
        0x01, 0x0e, 0x00, 0x02, 0x91, 0x00, 0x10, 0x00, 0x01, 0xff, 0xf1, 0x7f, 0xff, 0xff, 0xff,
        0xfe, 0x00,
    ];
    is_sent(&rt, 1, 7, &offset, &section, &wanted);
}

#[test]
fn the_message_of_one_prb(rt: HostRuntime) {
    let mut room = [0xee; 70];
    let message = DataMessage {
        carrier: carrier(false, Method::Plain, 106),
        head: DOWN,
        sections: &ONE,
    };
    let source = |_: usize, _: u16| rising();
    let span = Span { from: 0, to: 56 };
    assert_eq!(rt; message_size(&message.carrier, &ONE), 56);
    let size = piece(0, WHOLE, &message, &source, span, &mut room);
    let wanted = [
        0x10, 0x00, 0x00, 0x3c, 0x00, 0x00, 0x00, 0x80, 0x90, 0x01, 0x00, 0x00, 0x00, 0x10, 0x00,
        0x01, 0x00, 0x00, 0x00, 0x00, 0x00, 0x01, 0xff, 0xff, 0x00, 0x02, 0xff, 0xfe, 0x00, 0x03,
        0xff, 0xfd, 0x00, 0x04, 0xff, 0xfc, 0x00, 0x05, 0xff, 0xfb, 0x00, 0x06, 0xff, 0xfa, 0x00,
        0x07, 0xff, 0xf9, 0x00, 0x08, 0xff, 0xf8, 0x00, 0x09, 0xff, 0xf7, 0x00, 0x0a, 0xff, 0xf6,
        0x00, 0x0b, 0xff, 0xf5,
    ];
    assert_eq!(rt; room[..size.min(70)], wanted[..]);
    assert_eq!(rt; room[64..], [0xee; 6][..]);
}

#[test]
fn dynamic_formats(rt: HostRuntime) {
    let mut room = [0xee; 70];
    let message = DataMessage {
        carrier: carrier(true, Method::Bfp(9), 1),
        head: UHead {
            down: false,
            ..DOWN
        },
        sections: &[DataSection {
            id: 2,
            start_prb: 5,
            num_prb: 0,
        }],
    };
    let source = |_: usize, _: u16| peak();
    let span = Span { from: 0, to: 38 };
    let size = piece(0xffff, WHOLE, &message, &source, span, &mut room);
    let mut wanted = [0; 46];
    wanted[..21].copy_from_slice(&[
        0x10, 0x00, 0x00, 0x2a, 0xff, 0xff, 0x00, 0x80, 0x10, 0x01, 0x00, 0x00, 0x00, 0x20, 0x05,
        0x00, 0x91, 0x00, 0x02, 0x7d, 0x40,
    ]);
    assert_eq!(rt; room[..size.min(70)], wanted[..]);
    // Width 16 is written as 0.
    let wide = DataMessage {
        carrier: carrier(true, Method::Bfp(16), 1),
        ..message
    };
    let span = Span { from: 4, to: 11 };
    let size = piece(1, WHOLE, &wide, &source, span, &mut room);
    let wanted = [
        0x10, 0x00, 0x00, 0x0b, 0x00, 0x01, 0x00, 0x80, 0x00, 0x20, 0x05, 0x00, 0x01, 0x00, 0x00,
    ];
    assert_eq!(rt; room[..size.min(70)], wanted[..]);
}

#[test]
fn two_sections_in_pieces(rt: HostRuntime) {
    let sections = [
        DataSection {
            id: 1,
            start_prb: 1,
            num_prb: 1,
        },
        DataSection {
            id: 2,
            start_prb: 0,
            num_prb: 2,
        },
    ];
    let message = DataMessage {
        carrier: carrier(true, Method::Bfp(9), 3),
        head: DOWN,
        sections: &sections,
    };
    // Section 1 has the samples of the peak, section 2 has zeros and then the peak.
    let source = |number: usize, prb: u16| {
        if number == 0 || prb == 1 {
            peak()
        } else {
            [Iq { i: 0, q: 0 }; 12]
        }
    };
    let mut wanted = [0; 100];
    wanted[..13].copy_from_slice(&[
        0x90, 0x01, 0x00, 0x00, 0x00, 0x10, 0x01, 0x01, 0x91, 0x00, 0x02, 0x7d, 0x40,
    ]);
    wanted[38..44].copy_from_slice(&[0x00, 0x20, 0x00, 0x02, 0x91, 0x00]);
    wanted[72..75].copy_from_slice(&[0x02, 0x7d, 0x40]);
    assert_eq!(rt; message_size(&message.carrier, &sections), 100);
    assert_eq!(rt; section_size(&message.carrier, 2), 62);
    for length in [1u8, 3, 7, 40, 73, 100] {
        for k in 0..100 {
            let from = k * length as usize;
            if from < 100 {
                let to = (from + length as usize).min(100);
                let span = Span { from, to };
                let mut room = [0xee; 110];
                let size = piece(0, WHOLE, &message, &source, span, &mut room);
                assert_eq!(rt;
                    room[8..8 + (to - from)],
                    wanted[from..to],
                    "{from} to {to}"
                );
                assert_eq!(rt; room[size.min(110)..], [0xee; 110][size.min(110)..]);
            }
        }
    }
}
