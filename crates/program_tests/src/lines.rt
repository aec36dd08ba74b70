// A sink that fails.
use crate::made::{LITTLE, calls, head_of};
use air_source::Side;
use fh_base::{MemorySink, SinkFault};
use pcap_frames::Whose;
use pcap_lines::inject_text;
use std::test::Fail;

#[test]
fn a_failing_sink_is_told(rt: HostRuntime) -> Result<(), Fail> {
    let alloc = rt.alloc();
    let head = head_of(&rt, alloc, &LITTLE, 0);
    let mut out = MemorySink::new(alloc, 4, calls(alloc, 2)?);
    assert_eq!(rt;
        inject_text(&LITTLE, &head, Whose::All(Side::Ru), 0, &mut out),
        Err(SinkFault::Failed)
    );
    assert_eq!(rt; out.bytes(), b"inje".as_slice());
    Ok(())
}
