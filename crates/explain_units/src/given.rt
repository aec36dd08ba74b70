// What is kept of a section of data.
ghost use Rattle.std.specs.Prelude.{◌≡◌, ◌+◌, ◌≤◌, ◌++◌, OnOk};
ghost use Rattle.explain_model.specs.Judged.{is_timely};
ghost use Rattle.explain_model.specs.Sections.{some_of};
ghost use Rattle.explain_units.specs.Known.{fresh_with, given_by, given_of};

use crate::blocks::{Blocks, Given};
use explain_heard::DataJudged;
use fh_base::NoMemory;
use unit_model::DataVerdict;

// Whether a section of data was on time.
fn is_timely(verdict: DataVerdict) -> bool
    ensures { result ≡ is_timely verdict }
{
    match verdict {
        DataVerdict::Late | DataVerdict::Early => false,
        DataVerdict::Repeat | DataVerdict::Taken => true,
    }
}

// What is kept of a section of data of the arrival with this number.
fn given_of(number: u32, section: &DataJudged) -> Given
    ensures { result ≡ given_of number section.now }
{
    Given {
        id: section.id,
        slot: section.slot,
        symbol: section.symbol,
        first: section.prbs.first,
        count: section.prbs.count,
        number,
    }
}

/// Keeps a section of data, where it was on time.
pub(crate) fn keep_given(
    blocks: &mut Blocks,
    number: u32,
    section: &DataJudged,
) -> Result<(), NoMemory>
    ensures { OnOk result (blocks.new ≡ blocks.old ++ given_by number section.now) }
{
    if is_timely(section.verdict) {
        blocks.push(given_of(number, section))
    } else {
        Ok(())
    }
}

// So many of all, where not all of them.
fn some_of(fresh: u16, all: u16) -> Option<u16>
    ensures { result ≡ some_of fresh all }
{
    if fresh < all { Some(fresh) } else { None }
}

/// How many PRBs of a section had no block, where it was taken and not all of them had none.
pub(crate) fn fresh_by(blocks: &Blocks, number: u32, section: &DataJudged) -> Option<u16>
    requires { section.now.prbs.first + section.now.prbs.count ≤ 65535 }
    ensures { result ≡ fresh_with section.now.verdict blocks.now (given_of number section.now) }
{
    match section.verdict {
        DataVerdict::Taken => {
            let given = given_of(number, section);
            some_of(blocks.fresh_count(&given), given.count)
        }
        DataVerdict::Late | DataVerdict::Early | DataVerdict::Repeat => None,
    }
}
