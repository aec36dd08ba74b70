// The lines of what a unit judged of a part of a frame.
ghost use Rattle.std.specs.Prelude.{◌≡◌};
ghost use Rattle.explain_heard.specs.Built.{control_with, data_with, fragment_line, line_of_message, placed, whole_line};

use crate::heard::{FragmentHeard, MessageHeard, MessageWord};
use crate::judged::{CommandJudged, DataJudged, WholeJudged};
use ecpri_fragments::SeqField;
use explain_model::{
    Clash, ControlLine, DataLine, ExplainLine, MessagePlace, SymbolPlace, WholeLine,
};

fn placed(number: u32, id: u16, place: usize, seq: SeqField) -> MessagePlace
    ensures { result ≡ placed number id place seq }
{
    MessagePlace {
        number,
        id,
        place,
        seq,
    }
}

/// The line of a whole message of a frame, none where it is data to an endpoint.
pub fn message_line(number: u32, m: &MessageHeard) -> Option<ExplainLine>
    ensures { result ≡ line_of_message number m.now }
{
    let place = m.place;
    let size = m.size;
    let kind = m.kind;
    match m.word {
        MessageWord::Measure => Some(ExplainLine::Measure {
            number,
            place,
            size,
        }),
        MessageWord::Other => Some(ExplainLine::Other {
            number,
            place,
            kind,
            size,
        }),
        MessageWord::Short => Some(ExplainLine::Short {
            number,
            place,
            kind,
            size,
        }),
        MessageWord::Unknown { id, seq } => Some(ExplainLine::Unknown {
            message: placed(number, id, place, seq),
            kind,
        }),
        MessageWord::Command { id, seq, answer } => Some(ExplainLine::Command {
            message: placed(number, id, place, seq),
            answer,
        }),
        MessageWord::Data => None,
    }
}

/// The line of a fragment of data whose message is at this place of its frame.
pub fn fragment_line(number: u32, place: usize, f: &FragmentHeard) -> ExplainLine
    ensures { result ≡ fragment_line number place f.now }
{
    ExplainLine::Fragment {
        message: placed(number, f.endpoint.id, place, f.seq),
        bytes: f.bytes,
        verdict: f.verdict,
    }
}

/// The line of a whole message of data of which no section is read.
pub fn whole_line(number: u32, w: &WholeJudged) -> WholeLine
    ensures { result ≡ whole_line number w.now }
{
    WholeLine {
        number,
        id: w.id,
        named: w.named,
        pieces: w.pieces,
        bytes: w.bytes,
        answer: w.answer,
    }
}

/// The line of a section of a command that overlaps this.
pub fn control_line(number: u32, c: &CommandJudged, clash: Option<Clash>) -> ControlLine
    ensures { result ≡ control_with number c.now clash }
{
    let named = &c.allocation;
    ControlLine {
        number,
        place: SymbolPlace {
            id: named.endpoint.id,
            slot: named.slot,
            symbol: named.symbol,
        },
        section: named.section,
        prb: named.start_prb,
        num: u16::from(named.num_prb),
        symbols: named.num_symbol,
        mask: named.mask,
        uplink: !named.down,
        idle: named.idle,
        verdict: c.verdict,
        timing: c.timing,
        clash,
    }
}

/// The line of a section of data that gave so many PRBs their blocks.
pub fn data_line(number: u32, d: &DataJudged, fresh: Option<u16>) -> DataLine
    ensures { result ≡ data_with number d.now fresh }
{
    DataLine {
        number,
        place: SymbolPlace {
            id: d.id,
            slot: d.slot,
            symbol: d.symbol,
        },
        section: d.section,
        prb: d.prbs.first,
        num: d.prbs.count,
        verdict: d.verdict,
        timing: d.timing,
        fresh,
    }
}
