// Lines that were written down by hand: each kind, and those of the greatest values.
use crate::built::{missing, ramp};
use air_source::{
    AirCell, Line, Side, cell_line, count_line, delay_line, put_cell, put_count, put_delay,
};
use bfp_codec::Wide;
use fault_counters::Counter;
use fh_base::{Slot, Ticks};

/// A cell whose every field has its greatest or least value.
fn longest() -> AirCell {
    AirCell {
        side: Side::Ru,
        at: Ticks(i64::MIN),
        id: 0xfedc,
        slot: Slot {
            frame: i64::MIN,
            subframe: 255,
            slot: 255,
        },
        symbol: 255,
        prb: 65_535,
        section: 65_535,
        mask: 0xffff,
        block: Some([Wide {
            i: i32::MIN,
            q: -32_768,
        }; 12]),
    }
}

#[test]
fn lines_of_cells(rt: HostRuntime) {
    let all = AirCell {
        block: Some(ramp()),
        ..missing(0)
    };
    let later = AirCell {
        at: Ticks(15_415_600_000),
        symbol: 1,
        ..missing(0)
    };
    let uplink = AirCell {
        side: Side::Du,
        section: 5,
        ..missing(0)
    };
    let cases: [(AirCell, &[u8]); 4] = [
        (
            all,
            b"dl 15360000000 0000 1 0 0 0 0 1 fff 0,0 1,-1 2,-2 3,-3 4,-4 5,-5 6,-6 7,-7 8,-8 9,-9 10,-10 11,-11\n",
        ),
        (
            AirCell { mask: 0xff0, ..all },
            b"dl 15360000000 0000 1 0 0 0 0 1 ff0 0,0 1,-1 2,-2 3,-3 4,-4 5,-5 6,-6 7,-7 . . . .\n",
        ),
        (later, b"dl 15415600000 0000 1 0 0 1 0 1 fff missing\n"),
        (uplink, b"ul 15360000000 0000 1 0 0 0 0 5 fff missing\n"),
    ];
    for (cell, line) in cases {
        assert_eq!(rt; cell_line(&cell).as_slice(), line);
    }
}

#[test]
fn lines_of_the_greatest_values(rt: HostRuntime) {
    let line = cell_line(&longest());
    let head =
        b"dl -9223372036854775808 fedc -9223372036854775808 255 255 255 65535 65535 fff -2147483648,-32768 ";
    assert_eq!(rt; line.as_slice().starts_with(head), true);
    assert_eq!(rt; line.as_slice().len(), 77 + 12 * 19 + 1);
}

#[test]
fn lines_of_delays_and_counters(rt: HostRuntime) {
    let delay = delay_line(Ticks(1_689_600_000), Side::Du, 7, 3_276_800_000);
    assert_eq!(rt;
        delay.as_slice(),
        b"delay 1689600000 du 7 3276800000\n".as_slice()
    );
    let delay = delay_line(Ticks(i64::MIN), Side::Ru, 255, i128::MIN);
    assert_eq!(rt;
        delay.as_slice(),
        b"delay -9223372036854775808 ru 255 -170141183460469231731687303715884105728\n".as_slice()
    );
    let count = count_line(Side::Ru, Counter::Frames, 2);
    assert_eq!(rt; count.as_slice(), b"count ru frames 2\n".as_slice());
    let count = count_line(Side::Du, Counter::UnknownEndpoint, 0);
    assert_eq!(rt;
        count.as_slice(),
        b"count du unknown_endpoint 0\n".as_slice()
    );
}

#[test]
fn a_line_is_written_over(rt: HostRuntime) {
    let mut line = Line::new();
    put_cell(&missing(0), &mut line);
    assert_eq!(rt;
        line.as_slice(),
        b"dl 15360000000 0000 1 0 0 0 0 1 fff missing\n".as_slice()
    );
    put_delay(Ticks(-5), Side::Ru, 0, -1, &mut line);
    assert_eq!(rt; line.as_slice(), b"delay -5 ru 0 -1\n".as_slice());
    put_count(Side::Ru, Counter::Frames, 2, &mut line);
    assert_eq!(rt; line.as_slice(), b"count ru frames 2\n".as_slice());
}
