// What the configuration lines set, and what holds where none is given.
use air_source::Side;
use bfp_codec::{Format, Method};
use fh_base::Numerology;
use fh_document::{Comps, read};
use window_config::{Delays, EndpointConfig, Range};

fn range(min: i64, max: i64) -> Range {
    Range { min, max }
}

#[test]
fn defaults_hold_where_no_line_stands(rt: HostRuntime) {
    let d = read(rt.alloc(), b"fronthaul 1").expect(&rt, "read");
    assert_eq!(rt; d.config.delays, Delays::usual());
    assert_eq!(rt; (d.config.gap, d.config.fragment), (1_000, 1_492));
    let w = d.config.widths;
    assert_eq!(rt; (w.du, w.band, w.carrier, w.port), (4, 4, 4, 4));
    assert_eq!(rt; (d.source.seed, d.source.amplitude), (1, 1_000));
    assert_eq!(rt; (d.antenna.seed, d.antenna.amplitude), (2, 1_000));
    let none = Comps {
        du_sending: 0,
        du_receiving: 0,
        ru_sending: 0,
        ru_receiving: 0,
    };
    assert_eq!(rt; d.comps, none);
    assert_eq!(rt;
        (d.transits.dl, d.transits.ul, d.transits.m),
        (Some(50_000), Some(50_000), 50_000)
    );
    assert_eq!(rt; d.config.endpoints.as_slice().len(), 0);
    assert_eq!(rt; d.injections.len(), 0);
}

#[test]
fn lines_set_what_they_name(rt: HostRuntime) {
    let text =
        b"fronthaul 1\nwidths 3 0 5 8\nt1a 1 2 3 4\nt2a 5 6 7 8\nadvance 9\nta3 10 11\nta4 12 13\nt12 14 15\nt34 16 17\nhold 18 19\ngap 20\nfragment 200\nsource 21 22\nantenna 23 24\ncomp 25 26 27 28\ntransit dl 29\ntransit ul 30\ntransit m 31\nendpoint 0A0b offset 1.25 6 dynamic bfp14 7 3168\ninject dl 32 1000aBCd\n";
    let d = read(rt.alloc(), text).expect(&rt, "read");
    let delays = Delays {
        t1a_up: range(1, 2),
        t1a_cp_ul: range(3, 4),
        t2a_up: range(5, 6),
        t2a_cp_ul: range(7, 8),
        ta3: range(10, 11),
        ta4: range(12, 13),
        t12: range(14, 15),
        t34: range(16, 17),
        advance: 9,
        hold_dl: 18,
        hold_ul: 19,
    };
    assert_eq!(rt; d.config.delays, delays);
    assert_eq!(rt; (d.config.gap, d.config.fragment), (20, 200));
    let w = d.config.widths;
    assert_eq!(rt; (w.du, w.band, w.carrier, w.port), (3, 0, 5, 8));
    assert_eq!(rt; (d.source.seed, d.source.amplitude), (21, 22));
    assert_eq!(rt; (d.antenna.seed, d.antenna.amplitude), (23, 24));
    let comps = Comps {
        du_sending: 25,
        du_receiving: 26,
        ru_sending: 27,
        ru_receiving: 28,
    };
    assert_eq!(rt; d.comps, comps);
    assert_eq!(rt;
        (d.transits.dl, d.transits.ul, d.transits.m),
        (Some(29), Some(30), 31)
    );
    let endpoint = EndpointConfig {
        id: 0x0a0b,
        numerology: Numerology::offset(12, 7, 3_168).expect(&rt, "1.25 kHz"),
        prbs: 6,
        format: Format {
            dynamic: true,
            method: Method::Bfp(14),
        },
    };
    assert_eq!(rt; d.config.endpoints.as_slice().get(0), Some(&endpoint));
    let injection = d.injections.get(0).expect(&rt, "frame");
    assert_eq!(rt; injection.side, Side::Ru);
    assert_eq!(rt; injection.at, 32);
    assert_eq!(rt; injection.frame.as_slice(), b"\x10\x00\xab\xcd".as_slice());
}

#[test]
fn packs_and_extended_endpoints_are_read(rt: HostRuntime) {
    let text = b"fronthaul 2\npack 64\nendpoint 0002 extended 60 24 static none\n";
    let d = read(rt.alloc(), text).expect(&rt, "read");
    assert_eq!(rt; d.config.pack, 64);
    let endpoint = d.config.endpoints.as_slice().get(0).expect(&rt, "endpoint");
    assert_eq!(rt; (endpoint.id, endpoint.prbs), (2, 24));
    assert_eq!(rt; endpoint.numerology, Numerology::extended());
    let d = read(rt.alloc(), b"fronthaul 1\n").expect(&rt, "read");
    assert_eq!(rt; d.config.pack, 1);
}
