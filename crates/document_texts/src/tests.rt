// The list of a document that was worked by hand.
ghost use Rattle.std.specs.Prelude.{◌≡◌};

use crate::listing::list_sent;
use du_scheduler::tested;
use fh_base::PlainSink;
use fh_document::read;

// One downlink line, whose message goes in two fragments, one uplink line and one idle line. All is lost but the second command.
const DOCUMENT: &[u8] = b"fronthaul 3
transit dl lost
fragment 128
endpoint 0000 ordinary 30 106 static none
plan dl 0000 1 0 0 0 1 0 3 fff 1 0
plan ul 0000 1 0 0 2 1 0 1 fff 5 0
plan idle 0000 1 0 0 5 1 0 1 fff 9 0
deliver dl c 2 50000 60000
";

const LIST: &[u8] = b"sent dl c 1 14638080000 0000 1 0 0 0 line=5 seq=0 sub=0 e=1 bytes=24 lost
sent dl c 2 14748480000 0000 1 0 0 2 line=6 seq=0 sub=0 e=1 bytes=24 uplink copies 50000 60000
sent dl u 1 14830080000 0000 1 0 0 0 line=5 seq=0 sub=0 e=0 bytes=136 lost
sent dl u 2 14831616000 0000 1 0 0 0 line=5 seq=0 sub=1 e=1 bytes=32 lost
sent dl c 3 14912880000 0000 1 0 0 5 line=7 seq=1 sub=0 e=1 bytes=28 idle lost
end
";

#[test]
fn a_worked_document_is_listed(rt: HostRuntime) {
    let alloc = rt.alloc();
    let document = read(alloc, DOCUMENT).expect(&rt, "a document");
    tested(alloc, &document.config, &document.plan).expect(&rt, "a valid plan");
    let mut sink = PlainSink::new(alloc);
    assert_eq!(rt; list_sent(alloc, &document, &mut sink), Ok(()));
    assert_eq!(rt; sink.bytes(), LIST);
}
