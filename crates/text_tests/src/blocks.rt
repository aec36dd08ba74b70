// Samples of the whole range, of a closure that is kept.
ghost use Rattle.std.specs.Prelude.{◌≡◌};
ghost use Rattle.air_source.specs.Tellings.{corner_at};

use crate::built::SLOT;
use crate::telling::tell_samples;
use air_source::{AirCell, Event, MemoryAir, RePlace, Samples};
use bfp_codec::{Iq, Wide};
use fh_base::{List, Slot};
use std::test::Fail;

/// Answers of the whole range: I by the PRB and the element, Q by the id.
fn corner(place: RePlace) -> Wide
    ensures { result ≡ corner_at place }
{
    Wide {
        i: place.prb as i32 * 120 + place.re as i32 - 32768,
        q: 32767 - place.id as i32,
    }
}

#[test]
fn blocks_at_the_corners(rt: HostRuntime) -> Result<(), Fail> {
    let samples = Samples::keep(
        |place: RePlace| -> Wide
            ensures { result ≡ corner_at place }
        { corner(place) },
    );
    let first = Slot {
        frame: i64::MIN,
        subframe: 0,
        slot: 0,
    };
    let last = Slot {
        frame: i64::MAX,
        subframe: 9,
        slot: 15,
    };
    let low = samples.block(65535, first, 0, 0);
    let high = samples.block(0, last, 13, 272);
    for k in 0..12 {
        let re = k as i16;
        assert_eq!(rt;
            low[k],
            Iq {
                i: i16::MIN + re,
                q: i16::MIN
            }
        );
        assert_eq!(rt;
            high[k],
            Iq {
                i: re - 128,
                q: 32767
            }
        );
    }
    let mut air = MemoryAir::new(rt.alloc(), List::new(rt.alloc()));
    assert_eq!(rt; tell_samples(&samples, SLOT, &[0, 272], &mut air), Ok(()));
    match air.heard().get(1) {
        Some(
            Event::Cell(
                AirCell {
                    block: Some(block),
                    prb,
                    ..
                },
            ),
        ) => {
            assert_eq!(rt; *prb, 272);
            assert_eq!(rt; block[11], Wide { i: -117, q: 32767 });
        }
        _ => assert!(rt; false),
    }
    Ok(())
}
