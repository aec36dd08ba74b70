// Lines as the profile's worked texts have them.
use crate::faults::is_fault;
use crate::lines::put_line;
use crate::places::{Clash, MessagePlace, PrbRun, SymbolPlace, Timing};
use crate::reasons::{Reason, ReasonWord};
use crate::values::{
    CellWord, CommandAnswer, ControlLine, DataLine, ExplainLine, Margin, MarginClass, WholeAnswer,
    WholeLine,
};
use air_source::Side;
use ecpri_fragments::{SeqField, Verdict};
use ecpri_frames::{PduRefusal, PduWhy};
use fault_counters::Counter;
use fh_base::{Line, Slot, Ticks};
use std::test::Fail;
use unit_model::{CommandVerdict, DataVerdict};
use uplane_sections::{URefusal, UWhy};

const SLOT: Slot = Slot {
    frame: 1,
    subframe: 0,
    slot: 0,
};

fn place(symbol: u8) -> SymbolPlace {
    SymbolPlace {
        id: 0,
        slot: SLOT,
        symbol,
    }
}

fn message(number: u32, seq: u8) -> MessagePlace {
    MessagePlace {
        number,
        id: 0,
        place: 0,
        seq: SeqField {
            seq,
            last: true,
            sub: 0,
        },
    }
}

fn run(num: u32, section: u16) -> PrbRun {
    PrbRun {
        side: Side::Ru,
        at: Ticks(15_360_000_000),
        place: place(0),
        prb: 0,
        num,
        section,
    }
}

// Whether a line has this text, and whether it is one of the faults.
fn is_written(said: &ExplainLine, text: &[u8], fault: bool) -> bool {
    let mut line = Line::new();
    put_line(said, &mut line);
    line.as_slice() == text && is_fault(said) == fault
}

#[test]
fn lines_of_frames_and_messages(rt: HostRuntime) -> Result<(), Fail> {
    let frame = ExplainLine::Frame {
        number: 3,
        side: Side::Ru,
        at: Ticks(14_747_136_000),
        bytes: 28,
        refusal: Some(PduRefusal {
            place: 24,
            why: PduWhy::Revision,
        }),
    };
    assert!(rt; is_written(&frame, b"frame 3 dl 14747136000 28 Revision at=24\n", true));
    let command = ExplainLine::Command {
        message: message(5, 0),
        answer: CommandAnswer::WrongWay,
    };
    assert!(rt;
        is_written(
            &command,
            b"command 5 0000 place=0 seq=0 sub=0 e=1 wrong_way\n",
            true
        )
    );
    let fragment = ExplainLine::Fragment {
        message: message(7, 5),
        bytes: 28,
        verdict: Verdict::Whole,
    };
    assert!(rt;
        is_written(
            &fragment,
            b"data 7 0000 place=0 seq=5 sub=0 e=1 bytes=28 whole\n",
            false
        )
    );
    let whole = ExplainLine::Whole(WholeLine {
        number: 7,
        id: 0,
        named: Some((SLOT, 1)),
        pieces: 1,
        bytes: 28,
        answer: WholeAnswer::Refused(URefusal {
            place: 28,
            why: UWhy::Truncated,
        }),
    });
    assert!(rt;
        is_written(
            &whole,
            b"whole 7 0000 1 0 0 1 pieces=1 bytes=28 Truncated at=28\n",
            true
        )
    );
    Ok(())
}

#[test]
fn lines_of_sections(rt: HostRuntime) -> Result<(), Fail> {
    let control = ExplainLine::Control(ControlLine {
        number: 2,
        place: place(0),
        section: 2,
        prb: 0,
        num: 1,
        symbols: 1,
        mask: 0xfff,
        uplink: false,
        idle: false,
        verdict: CommandVerdict::Overlap,
        timing: Timing {
            since: 80_000,
            until: 131_000,
        },
        clash: Some(Clash {
            section: 1,
            symbol: 0,
            prb: 0,
        }),
    });
    let text =
        b"c 2 0000 1 0 0 0 section=2 prb=0 num=1 symbols=1 mask=fff overlap since=80000 until=131000 with=1 symbol=0 prb=0\n";
    assert!(rt; is_written(&control, text.as_slice(), true));
    let data = ExplainLine::Data(DataLine {
        number: 2,
        place: place(0),
        section: 5,
        prb: 0,
        num: 1,
        verdict: DataVerdict::Late,
        timing: Timing {
            since: 221_001,
            until: -1,
        },
        fresh: None,
    });
    assert!(rt;
        is_written(
            &data,
            b"u 2 0000 1 0 0 0 section=5 prb=0 num=1 late since=221001 until=-1\n",
            true
        )
    );
    Ok(())
}

#[test]
fn lines_of_cells_and_reasons(rt: HostRuntime) -> Result<(), Fail> {
    let cells = ExplainLine::Cells {
        run: run(1, 1),
        mask: 0xfff,
        word: CellWord::Shown { from: 2 },
    };
    assert!(rt;
        is_written(
            &cells,
            b"dl 15360000000 0000 1 0 0 0 prb=0 num=1 section=1 mask=fff shown from=2\n",
            false
        )
    );
    let missing = ExplainLine::WhyMissing {
        run: run(4, 1),
        mask: 0xfff,
        reason: Reason::Unfinished {
            seq: 0,
            pieces: 1,
            from: 6,
        },
    };
    let text =
        b"why dl 15360000000 0000 1 0 0 0 prb=0 num=4 section=1 mask=fff missing unfinished seq=0 pieces=1 from=6\n";
    assert!(rt; is_written(&missing, text.as_slice(), true));
    let silent = ExplainLine::WhySilent {
        run: run(2, 3),
        mask: 0xfff,
        line: 4,
        reason: Reason::NoCommand,
    };
    assert!(rt;
        is_written(
            &silent,
            b"why dl 15360000000 0000 1 0 0 0 prb=0 num=2 section=3 mask=fff line=4 silent nocommand\n",
            true
        )
    );
    let unused = ExplainLine::Unused {
        run: run(1, 2),
        from: 3,
    };
    assert!(rt;
        is_written(
            &unused,
            b"unused dl 15360000000 0000 1 0 0 0 prb=0 num=1 section=2 from=3\n",
            true
        )
    );
    Ok(())
}

#[test]
fn lines_of_sums(rt: HostRuntime) -> Result<(), Fail> {
    let margin = ExplainLine::Margin {
        side: Side::Du,
        class: MarginClass::Data,
        id: 0,
        margin: Margin {
            ontime: 0,
            least: Timing { since: 0, until: 0 },
            late: 1,
            late_by: 1,
            early: 0,
            early_by: 0,
        },
    };
    assert!(rt;
        is_written(
            &margin,
            b"margin du u 0000 ontime=0 late=1 lateby=1\n",
            true
        )
    );
    let missing = ExplainLine::MissingCells {
        side: Side::Ru,
        id: 16,
        word: ReasonWord::NoData,
        cells: 1,
    };
    assert!(rt; is_written(&missing, b"reason dl 0010 missing nodata 1\n", true));
    let count = ExplainLine::Count {
        side: Side::Ru,
        counter: Counter::Frames,
        value: 2,
    };
    assert!(rt; is_written(&count, b"count ru frames 2\n", true));
    assert!(rt;
        is_written(
            &ExplainLine::Head { faults: true },
            b"explain 1 faults\n",
            true
        )
    );
    assert!(rt; is_written(&ExplainLine::End, b"end\n", true));
    Ok(())
}
