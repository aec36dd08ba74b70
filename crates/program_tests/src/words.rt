// Words that are commands.
use crate::made::words_of;
use air_source::Side;
use command_words::{Command, WordsFault, read_words};
use fh_base::NoMemory;
use pcap_frames::Whose;
use std::alloc::Global;
use std::test::Fail;

fn read(alloc: Global, words: &[&[u8]]) -> Result<Result<Command, WordsFault>, NoMemory> {
    Ok(read_words(alloc, &words_of(alloc, words)?))
}

fn generate(seed: u32, slots: u32) -> Command {
    Command::Generate { seed, slots }
}

#[test]
fn words_are_commands(rt: HostRuntime) -> Result<(), Fail> {
    let (whose, start) = (Whose::All(Side::Ru), 9_600_000);
    let down = Command::Pcap { whose, start };
    let (whose, start) = (Whose::All(Side::Du), 1_000_000_000_000);
    let up = Command::PcapCapture { whose, start };
    let (whose, start) = (Whose::Port([2, 0, 0, 0, 0xab, 0xcd]), 0);
    let both = Command::Pcap { whose, start };
    let cases: [(&[&[u8]], Command); 19] = [
        (&[b"replay"], Command::Replay),
        (&[b"summary"], Command::Summary),
        (&[b"capture"], Command::Capture),
        (&[b"show"], Command::Show { json: false }),
        (&[b"show", b"--json"], Command::Show { json: true }),
        (&[b"explain"], Command::Explain { faults: false }),
        (
            &[b"explain", b"--faults"],
            Command::Explain { faults: true },
        ),
        (&[b"sent"], Command::Sent),
        (&[b"draw", b"windows"], Command::DrawWindows),
        (&[b"windows"], Command::Windows),
        (&[b"fit"], Command::Fit),
        (&[b"generate", b"7", b"20"], generate(7, 20)),
        (&[b"generate", b"0000000007", b"020"], generate(7, 20)),
        (
            &[b"generate", b"4294967295", b"001"],
            generate(4_294_967_295, 1),
        ),
        (&[b"generate", b"0", b"400"], generate(0, 400)),
        (&[b"pcap", b"dl", b"9600000"], down),
        (&[b"pcap", b"dl", b"0000009600000"], down),
        (&[b"pcap-capture", b"ul", b"1000000000000"], up),
        (&[b"pcap", b"02000000abCD", b"0"], both),
    ];
    for (words, command) in cases {
        assert_eq!(rt; read(rt.alloc(), words)?, Ok(command));
    }
    let (frame, subframe, count) = (1, 9, 10);
    let grid = Command::DrawGrid {
        frame,
        subframe,
        count,
    };
    let words: &[&[u8]] = &[b"draw", b"grid", b"0001", b"9", b"10"];
    assert_eq!(rt; read(rt.alloc(), words)?, Ok(grid));
    Ok(())
}
