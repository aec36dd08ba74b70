// What is beside a row.
ghost use Rattle.std.specs.Prelude.{◌≡◌, ◌++◌, ◌+◌, ◌≤◌, ◌<◌, ◌^◌, length, OnOk};
ghost use Rattle.pictures.specs.Labels.{count_part, counts_text, sections_text, least_text, since_text, until_text};

use crate::tallies::Counts;
use crate::texts::{Anchor, put_text};
use fh_base::{Bytes, Line, NoMemory};

/// Appends how many sections are of a kind, where any are.
fn count_part(line: &mut Line, n: u32, name: &[u8])
    requires room { length line.old + 42 ≤ 512 }
    requires short { length name.now ≤ 20 }
    ensures text { line.new ≡ count_part line.old n name.now }
    ensures short { length line.new ≤ length line.old + 42 }
{
    if n == 0 {
        return;
    }
    if !line.as_slice().is_empty() {
        line.text(b", ");
    }
    line.number(u64::from(n));
    line.text(name);
}

/// How many sections are of each kind.
#[tactic(auto, unfolding(crate::specs::Labels::counts_text))]
fn counts_line(counts: Counts) -> Line
    ensures text { result ≡ counts_text counts }
{
    let mut line = Line::new();
    count_part(&mut line, counts.on_time, b" on time");
    count_part(&mut line, counts.late, b" late");
    count_part(&mut line, counts.early, b" early");
    if line.as_slice().is_empty() {
        line.text(b"nothing arrived");
    }
    line
}

/// Appends how many sections are of each kind.
#[tactic(auto, unfolding(crate::specs::Labels::sections_text))]
pub(crate) fn put_sections(to: &mut Bytes, y: u32, counts: Counts) -> Result<(), NoMemory>
    ensures { OnOk result (to.new ≡ to.old ++ sections_text y counts) }
{
    let line = counts_line(counts);
    put_text(to, 204, y, false, Anchor::End, line.as_slice())
}

/// Appends a least margin, where there is one.
fn put_least(to: &mut Bytes, y: u32, least: Option<i64>, what: &[u8]) -> Result<(), NoMemory>
    requires { length what.now ≤ 40 }
    ensures { OnOk result (to.new ≡ to.old ++ least_text y least what.now) }
{
    match least {
        None => Ok(()),
        Some(ns) => {
            let mut line = Line::new();
            line.text(b"least ");
            line.signed(ns);
            line.text(what);
            put_text(to, 204, y, true, Anchor::End, line.as_slice())
        }
    }
}

/// Appends the least time after the opening.
pub(crate) fn put_since(to: &mut Bytes, y: u32, since: Option<i64>) -> Result<(), NoMemory>
    ensures { OnOk result (to.new ≡ to.old ++ since_text y since) }
{
    put_least(to, y, since, b" ns after opening")
}

/// Appends the least time before the closing.
pub(crate) fn put_until(to: &mut Bytes, y: u32, until: Option<i64>) -> Result<(), NoMemory>
    ensures { OnOk result (to.new ≡ to.old ++ until_text y until) }
{
    put_least(to, y, until, b" ns before closing")
}
