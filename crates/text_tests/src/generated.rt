// Generated documents: the longest, and one that is read.
use fh_base::Slot;
use fh_document::{read, write};
use std::test::Fail;
use window_config::{PlanKind, PlanLine};

#[test]
fn most_slots(rt: HostRuntime) -> Result<(), Fail> {
    let text = write(rt.alloc(), 4_294_967_295, 400)?;
    let bytes = text.as_slice();
    assert_eq!(rt; bytes.len(), 76_564);
    let (_, last) = bytes.split_at(76_533);
    assert_eq!(rt; last, b"\ndeliver dl u 3996 50000 60000\n".as_slice());
    Ok(())
}

#[test]
fn generated_documents_are_read(rt: HostRuntime) -> Result<(), Fail> {
    let text = write(rt.alloc(), 9, 400)?;
    let d = read(rt.alloc(), text.as_slice()).expect(&rt, "read");
    assert_eq!(rt; d.config.endpoints.as_slice().len(), 4);
    assert_eq!(rt; (d.source.seed, d.antenna.seed), (9, 9));
    assert_eq!(rt; (d.plan.len(), d.plan_lines.len()), (1_600, 1_600));
    assert_eq!(rt; d.plan_lines.get(0), Some(&8));
    let slot = Slot {
        frame: 20,
        subframe: 9,
        slot: 1,
    };
    let last = PlanLine {
        kind: PlanKind::Up,
        id: 3,
        slot,
        symbol: 0,
        count: 14,
        start_prb: 0,
        num_prb: 106,
        mask: 0xfff,
        section: 400,
        beam: 0,
    };
    assert_eq!(rt; d.plan.get(1_599), Some(&last));
    assert_eq!(rt; d.deliveries.len(), 400);
    let delivery = d.deliveries.get(399).expect(&rt, "last");
    assert_eq!(rt; delivery.k, 4_000);
    assert_eq!(rt;
        delivery.copies.times().as_slice(),
        [50_000, 60_000].as_slice()
    );
    Ok(())
}
