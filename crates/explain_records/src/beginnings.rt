// The beginnings of messages, and messages under a used sequence id.
ghost use Rattle.std.specs.Prelude.{◌≡◌, ◌++◌, length, option_to_list, IfOk, OnOk, OnErr};
ghost use Rattle.explain_records.specs.Places.{changed};
ghost use Rattle.explain_records.specs.Turns.{begun_next, begun_stood, beginning_of, counted, last_next, last_stood, makes_whole, place_of, repeated_by, repeats};

use crate::generations::LastGeneration;
use crate::told::{FirstBytes, FragmentTold, same_first};
use air_source::Side;
use ecpri_fragments::Verdict;
use explain_model::{BeginningRecord, RepeatedRecord};
use fh_base::NoMemory;

/// A stored first fragment that tells of a symbol.
#[derive(Clone, Copy)]
pub(crate) struct Beginning {
    /// Its record, with how many fragments are stored in its generation now.
    pub(crate) kept: BeginningRecord,
    /// Whether its message is whole.
    pub(crate) is_whole: bool,
}

fn makes_whole(verdict: Verdict) -> bool
    ensures { result ≡ makes_whole verdict }
{
    match verdict {
        Verdict::Whole => true,
        Verdict::Stored | Verdict::Repeat | Verdict::Stray | Verdict::TooLong => false,
    }
}

/// Writes how many fragments are stored with a beginning, and whether its message is complete.
fn count(all: &mut Vec<Beginning>, place: Option<usize>, pieces: u8, is_whole: bool)
    ensures { all.new.items ≡ changed (counted pieces is_whole) place all.old.items }
{
    if let Some(k) = place {
        if k < all.len() {
            let old = all[k];
            all[k] = Beginning {
                kept: BeginningRecord { pieces, ..old.kept },
                is_whole,
            };
        }
    }
}

/// Keeps a first fragment where it tells of a symbol, and answers its place. After `NoMemory` nothing changed.
fn begin(
    all: &mut Vec<Beginning>,
    side: Side,
    told: &FragmentTold,
    pieces: u8,
) -> Result<Option<usize>, NoMemory>
    ensures place { IfOk result (λ k. k ≡ place_of told.now.named (length all.old.items)) }
    ensures ok { OnOk result (all.new.items ≡ all.old.items ++ beginning_of side told.now pieces told.now.named) }
    ensures err { OnErr result (all.new.items ≡ all.old.items) }
{
    match told.named {
        None => Ok(None),
        Some((slot, symbol)) => {
            let place = all.as_slice().len();
            all.push(Beginning {
                kept: BeginningRecord {
                    side,
                    ep: told.ep,
                    slot,
                    symbol,
                    seq: told.seq,
                    pieces,
                    number: told.number,
                },
                is_whole: makes_whole(told.verdict),
            })?;
            Ok(Some(place))
        }
    }
}

/// Keeps a fragment that is stored in a generation. After `NoMemory` nothing changed.
fn stand(
    all: &mut Vec<Beginning>,
    side: Side,
    told: &FragmentTold,
    last: LastGeneration,
) -> Result<LastGeneration, NoMemory>
    ensures last { IfOk result (λ l. l ≡ last_stood told.now last (length all.old.items)) }
    ensures ok { OnOk result (all.new.items ≡ begun_stood side told.now last all.old.items) }
    ensures err { OnErr result (all.new.items ≡ all.old.items) }
{
    let pieces = match last.pieces.checked_add(1) {
        Some(pieces) => pieces,
        None => return Err(NoMemory),
    };
    if told.sub == 0 {
        let place = begin(all, side, told, pieces)?;
        Ok(LastGeneration {
            start: last.start,
            first: Some(told.start),
            place,
            pieces,
        })
    } else {
        count(all, last.place, pieces, makes_whole(told.verdict));
        Ok(LastGeneration {
            start: last.start,
            first: last.first,
            place: last.place,
            pieces,
        })
    }
}

/// What is kept of a fragment that was answered Repeat, where another message's first fragment is stored.
fn repeated(side: Side, told: &FragmentTold, first: Option<FirstBytes>) -> Option<RepeatedRecord>
    ensures { option_to_list result ≡ repeated_by side told.now first }
{
    match first {
        None => None,
        Some(stood) => {
            if same_first(&stood, &told.start) {
                return None;
            }
            match told.named {
                None => None,
                Some((slot, symbol)) => Some(RepeatedRecord {
                    side,
                    ep: told.ep,
                    slot,
                    symbol,
                    seq: told.seq,
                    number: told.number,
                }),
            }
        }
    }
}

/// Keeps a record, if there is one. After `NoMemory` nothing changed.
fn keep(all: &mut Vec<RepeatedRecord>, new: Option<RepeatedRecord>) -> Result<(), NoMemory>
    ensures ok { OnOk result (all.new.items ≡ all.old.items ++ option_to_list new) }
    ensures err { OnErr result (all.new.items ≡ all.old.items) }
{
    match new {
        None => Ok(()),
        Some(r) => {
            all.push(r)?;
            Ok(())
        }
    }
}

/// Keeps what a fragment tells, and answers its generation with it. After `NoMemory` nothing changed.
pub(crate) fn join(
    begun: &mut Vec<Beginning>,
    all: &mut Vec<RepeatedRecord>,
    side: Side,
    told: &FragmentTold,
    last: LastGeneration,
) -> Result<LastGeneration, NoMemory>
    ensures last { IfOk result (λ l. l ≡ last_next told.now last (length begun.old.items)) }
    ensures begun { OnOk result (begun.new.items ≡ begun_next side told.now last begun.old.items) }
    ensures repeated { OnOk result (all.new.items ≡ all.old.items ++ repeats side told.now last) }
    ensures err_begun { OnErr result (begun.new.items ≡ begun.old.items) }
    ensures err_repeated { OnErr result (all.new.items ≡ all.old.items) }
{
    match told.verdict {
        Verdict::Stored | Verdict::Whole => stand(begun, side, told, last),
        Verdict::Repeat => {
            keep(all, repeated(side, told, last.first))?;
            Ok(last)
        }
        Verdict::Stray | Verdict::TooLong => Ok(last),
    }
}
