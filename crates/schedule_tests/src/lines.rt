// What `plan_model` computes of one line, at values that were worked out by hand.
ghost use Rattle.window_config.specs.Endpoints.{IsEndpoint};
ghost use Rattle.window_config.specs.Plans.{IsPlanLine};

use crate::steps::{endpoint, in_slot, line, of_prbs, of_symbols};
use fh_base::{Numerology, Ticks};
use plan_model::{
    PlannedLine, frame_count, is_near, is_out_of_range, line_allocation, planned_line, section_size,
};
use std::test::Fail;
use window_config::{EndpointConfig, PlanKind, PlanLine};

/// An endpoint of 273 PRBs.
fn wide(numerology: Numerology) -> EndpointConfig
    ensures { IsEndpoint result }
{
    of_prbs(endpoint(numerology), 273)
}

/// A line of all PRBs in the last symbol of slot 1.
fn last() -> PlanLine
    ensures { IsPlanLine result }
{
    in_slot(line(PlanKind::Idle, 13, (1023, 0), 5), 1)
}

#[test]
fn a_line_is_planned_at_its_endpoint(rt: HostRuntime) -> Result<(), Fail> {
    let e = wide(Numerology::ordinary(1).expect(&rt, "30 kHz"));
    let other = EndpointConfig { id: 1, ..e };
    let planned = PlannedLine {
        index: 3,
        ep: 1,
        endpoint: e,
        line: last(),
    };
    assert_eq!(rt; planned_line(&[other, e], 3, &last()), Some(planned));
    assert_eq!(rt; planned_line(&[other], 3, &last()), None);
    let a = line_allocation(&planned);
    assert_eq!(rt; a.down, true);
    assert_eq!(rt; a.idle, true);
    assert_eq!(rt; a.filter, 0);
    Ok(())
}

#[test]
fn a_line_is_in_range(rt: HostRuntime) -> Result<(), Fail> {
    let e = wide(Numerology::ordinary(1).expect(&rt, "30 kHz"));
    assert_eq!(rt; is_out_of_range(&e, &last()), false);
    let behind = of_symbols(last(), 2);
    assert_eq!(rt; is_out_of_range(&e, &behind), true);
    let far = PlanLine {
        num_prb: 1,
        ..last()
    };
    assert_eq!(rt; is_out_of_range(&e, &far), true);
    // a slot with the extended cyclic prefix has 12 symbols
    let extended = wide(Numerology::extended());
    for (symbol, is_out) in [(12, true), (11, false)] {
        let here = PlanLine { symbol, ..last() };
        assert_eq!(rt; is_out_of_range(&extended, &here), is_out);
    }
    Ok(())
}

#[test]
fn sizes_and_distances(rt: HostRuntime) -> Result<(), Fail> {
    let e = wide(Numerology::ordinary(1).expect(&rt, "30 kHz"));
    assert_eq!(rt; section_size(&e, 0), 13108);
    assert_eq!(rt; frame_count(1492, 13112), 9);
    assert_eq!(rt; is_near(Ticks(10), Ticks(5), Ticks(15)), true);
    assert_eq!(rt; is_near(Ticks(10), Ticks(16), Ticks(5)), false);
    Ok(())
}
