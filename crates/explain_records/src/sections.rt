// The records of sections, and of whole messages that were not decoded.
ghost use Rattle.std.specs.Prelude.{◌≡◌, ◌++◌, OnOk, OnErr};
ghost use Rattle.explain_records.specs.OfJudged.{listed};
ghost use Rattle.explain_records.specs.Steps.{kept_next};

use crate::of_judged::{command_record, data_record, header_record};
use crate::store::KeptRecords;
use air_source::Side;
use explain_heard::Judged;
use explain_model::{CommandRecord, HeaderRecord};
use fh_base::NoMemory;

fn keep_command(kept: &mut KeptRecords, new: Option<CommandRecord>) -> Result<(), NoMemory>
    ensures ok { OnOk result (kept.new ≡ record kept.old { commanded = kept.old.commanded ++ listed new }) }
    ensures err { OnErr result (kept.new ≡ kept.old) }
{
    match new {
        Some(r) => kept.command(r),
        None => Ok(()),
    }
}

fn keep_header(kept: &mut KeptRecords, new: Option<HeaderRecord>) -> Result<(), NoMemory>
    ensures ok { OnOk result (kept.new ≡ record kept.old { headers = kept.old.headers ++ listed new }) }
    ensures err { OnErr result (kept.new ≡ kept.old) }
{
    match new {
        Some(r) => kept.header(r),
        None => Ok(()),
    }
}

/// Keeps the record of a section, or of a whole message that was not decoded. After `NoMemory` nothing changed.
pub(crate) fn keep_section(
    kept: &mut KeptRecords,
    side: Side,
    number: u32,
    judged: &Judged,
) -> Result<(), NoMemory>
    ensures ok { OnOk result (kept.new ≡ kept_next side number judged.now kept.old) }
    ensures err { OnErr result (kept.new ≡ kept.old) }
{
    match judged {
        Judged::Message(_) | Judged::Fragment(_) => Ok(()),
        Judged::Command(c) => keep_command(kept, command_record(number, c)),
        Judged::Whole(w) => keep_header(kept, header_record(side, number, w)),
        Judged::Data(d) => kept.data(data_record(side, number, d)),
    }
}
