// Sequence ids that recur twice: counters by hand.
use fh_base::PlainSink;
use fh_document::read;
use fronthaul_replay::{check_plan, report_document};
use std::alloc::Global;
use std::test::Fail;

/// The first PRB of all 14 symbols of so many slots, one after the other from frame 1 on.
fn planned_slots(alloc: Global, slots: u16) -> Result<String, Fail> {
    let mut text = String::new(alloc);
    text.push_str("fronthaul 1\nendpoint 0000 ordinary 30 106 static none\n")?;
    for n in 0..slots {
        let (frame, subframe, slot) = (1 + n / 20, n / 2 % 10, n % 2);
        text.push_str(format!(in alloc;
            "plan ul 0000 {frame} {subframe} {slot} 0 14 0 1 fff 5 0\n"
        )?.as_str())?;
    }
    Ok(text)
}

/// Sequence ids recur after 256 messages, some 9 ms later, which is far more than the hold.
#[test]
fn six_hundred_messages_of_one_endpoint(rt: HostRuntime) -> Result<(), Fail> {
    let alloc = rt.alloc();
    let document = read(alloc, planned_slots(alloc, 43)?.as_bytes())?;
    let plan = check_plan(alloc, &document)?;
    let mut out = PlainSink::new(alloc);
    assert_eq!(rt; report_document(alloc, &document, plan, &mut out), Ok(()));
    let counts =
        b" 180,547\ncount ru frames 43\ncount ru messages 43\ncount ru c_accepted 43\ncount du frames 602\ncount du messages 602\ncount du f_whole 602\ncount du u_taken 602\ncount du cells 602\nend\n";
    assert!(rt; out.bytes().ends_with(counts));
    Ok(())
}
