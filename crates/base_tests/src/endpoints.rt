// Ids that were split and joined by hand, and a full list.
use eaxc_map::{AddFault, Endpoints, Parts, WidthSum, Widths};
use std::test::Fail;

fn parts(du: u16, band: u16, carrier: u16, port: u16) -> Parts {
    Parts {
        du,
        band,
        carrier,
        port,
    }
}

#[test]
fn an_id_is_split_and_joined(rt: HostRuntime) -> Result<(), Fail> {
    let cases = [
        (Widths::new(4, 4, 4, 4)?, 0x1234, parts(1, 2, 3, 4)),
        (Widths::new(0, 16, 0, 0)?, 0xffff, parts(0, 0xffff, 0, 0)),
        (Widths::new(16, 0, 0, 0)?, 0xfedc, parts(0xfedc, 0, 0, 0)),
        (Widths::new(3, 0, 5, 8)?, 0xb4a5, parts(5, 0, 20, 0xa5)),
    ];
    for (widths, id, wanted) in cases {
        assert_eq!(rt; widths.split(id), wanted, "{id}");
        assert_eq!(rt; widths.join(wanted), Some(id), "{id}");
    }
    Ok(())
}

#[test]
fn what_does_not_fit_is_refused(rt: HostRuntime) -> Result<(), Fail> {
    assert_eq!(rt; Widths::new(4, 4, 4, 5), Err(WidthSum { sum: 17 }));
    assert_eq!(rt;
        Widths::new(255, 255, 255, 255),
        Err(WidthSum { sum: 1020 })
    );
    let widths = Widths::new(4, 4, 8, 0)?;
    assert_eq!(rt; widths.join(parts(15, 15, 255, 0)), Some(0xffff));
    assert_eq!(rt; widths.join(parts(16, 0, 0, 0)), None);
    assert_eq!(rt; widths.join(parts(0, 0, 0, 1)), None);
    Ok(())
}

#[test]
fn ids_are_found_where_they_were_added(rt: HostRuntime) {
    let mut endpoints = Endpoints::new();
    for k in 0..16u16 {
        assert_eq!(rt; endpoints.add(3 * k), Ok(k as usize));
    }
    assert_eq!(rt; endpoints.add(45), Err(AddFault::Twice));
    assert_eq!(rt; endpoints.add(46), Err(AddFault::Full));
    assert_eq!(rt; endpoints.find(0), Some(0));
    assert_eq!(rt; endpoints.find(45), Some(15));
    assert_eq!(rt; endpoints.find(46), None);
}
