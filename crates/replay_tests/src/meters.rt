// A Request and its Response, by hand: 100 ns of compensation at the distributed unit's sending edge, 40 ns at the radio unit's receiving
// edge, 50,000 ns each way.
use delay_exchange::{DelayResult, UnitMeter};
use delay_measure::{Compensation, Kind};
use fault_counters::Counter;
use fh_base::{NoMemory, Ticks};

/// The Request of id 7, sent at 999,900 ns with 100 ns of compensation: header, id and action, seconds, nanoseconds, compensation.
const REQUEST: [u8; 24] = [
    0x10, 5, 0, 0x14, 7, 0, 0, 0, 0, 0, 0, 0, 0, 0xf, 0x41, 0xdc, 0, 0, 0, 0, 0, 0x64, 0, 0,
];

/// Its Response, received at 1,050,040 ns with 40 ns of compensation.
const RESPONSE: [u8; 24] = [
    0x10, 5, 0, 0x14, 7, 2, 0, 0, 0, 0, 0, 0, 0, 0x10, 5, 0xb8, 0, 0, 0, 0, 0, 0x28, 0, 0,
];

#[test]
fn a_request_and_its_response(rt: HostRuntime) -> Result<(), NoMemory> {
    let mut du = UnitMeter::make(
        rt.alloc(),
        Compensation {
            sending: 6_553_600,
            receiving: 0,
        },
    );
    let mut ru = UnitMeter::make(
        rt.alloc(),
        Compensation {
            sending: 0,
            receiving: 2_621_440,
        },
    );
    du.begin(Ticks(1_536_000_000), 7, Kind::One)?;
    assert_eq!(rt; du.take_made(), Some(REQUEST));
    ru.tell(Ticks(1_612_800_000), &REQUEST)?;
    assert_eq!(rt; ru.take_made(), Some(RESPONSE));
    assert_eq!(rt; ru.results().len(), 0);
    du.tell(Ticks(1_689_600_000), &RESPONSE)?;
    assert_eq!(rt; du.take_made(), None);
    let delay = DelayResult {
        id: 7,
        value: 3_276_800_000,
    };
    assert_eq!(rt; du.results(), [delay].as_slice());
    assert_eq!(rt; du.count(Counter::DelayResult), 1);
    du.tell(Ticks(1_689_600_000), &RESPONSE)?;
    assert_eq!(rt; du.results().len(), 0);
    assert_eq!(rt; du.count(Counter::DelayRepeat), 1);
    du.tell(Ticks(1_689_600_000), &[0x10, 5, 0, 0])?;
    assert_eq!(rt; du.count(Counter::DelayShort), 1);
    Ok(())
}
