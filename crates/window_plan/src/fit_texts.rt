// The text of a fit.
ghost use Rattle.std.specs.Prelude.{◌≡◌, ◌+◌, ◌≤◌, ◌++◌, [], length, OnOk, OnErr};
ghost use Rattle.std.specs.List.{flat_map};
ghost use Rattle.std.specs.Io.KnownBytes.{append_known};
ghost use Rattle.fh_base.specs.Causes.{HasSinkCause};
ghost use Rattle.fh_base.specs.Told.{WritesFront, WritesPart};
ghost use Rattle.fh_base.specs.Owed.{Carried};
ghost use Rattle.window_config.specs.Limits.{IsWithinLimits};
ghost use Rattle.window_plan.specs.Fitting.{fitted};
ghost use Rattle.window_plan.specs.Windows.{range_text};
ghost use Rattle.window_plan.specs.Fit.{frame_text, frames_text, breach_line, breach_text, fitted_text, fitted_or_none, fit_text};

use crate::{Breach, NoFit, breach, fit};
use fh_base::{Line, OwedBytes, Sink, SinkFault};
use window_config::{Delays, Range, Relation};

/// The relations of the check, in their order.
const RELATIONS: [Relation; 8] = [
    Relation::UpMax,
    Relation::UpMin,
    Relation::CpUlMax,
    Relation::CpUlMin,
    Relation::Ta4Min,
    Relation::Ta4Max,
    Relation::HoldDl,
    Relation::HoldUl,
];

// Appends when a frame is sent, and how long it takes.
fn frame(line: &mut Line, sent: i64, delay: i64)
    requires { length line.old + 42 ≤ 512 }
    ensures text { line.new ≡ line.old ++ frame_text sent delay }
    ensures short { length line.new ≤ length line.old + 42 }
{
    line.spaced_signed(sent);
    line.spaced_signed(delay);
}

// Appends the frames of a breach.
fn frames(line: &mut Line, b: Breach)
    requires { length line.old ≤ 16 }
    ensures text { line.new ≡ line.old ++ frames_text b }
    ensures short { length line.new ≤ 100 }
{
    match b {
        Breach::One { sent, delay } => frame(line, sent, delay),
        Breach::Two {
            sent,
            delay,
            later,
            later_delay,
        } => {
            frame(line, sent, delay);
            frame(line, later, later_delay);
        }
    }
}

// Appends a relation's line to an empty line, and nothing where it holds.
#[tactic(auto, unfolding(crate::specs::Fit::breach_line))]
fn breach_words(line: &mut Line, r: Relation, found: Option<Breach>)
    requires { line.old ≡ [] }
    ensures { line.new ≡ breach_line r found }
{
    if let Some(b) = found {
        line.text(b"breach ");
        line.text(r.name().as_bytes());
        frames(line, b);
        line.text(b"\n");
    }
}

// Appends a minimum and a maximum.
fn range(line: &mut Line, r: Range)
    requires { length line.old + 42 ≤ 512 }
    ensures text { line.new ≡ line.old ++ range_text r }
    ensures short { length line.new ≤ length line.old + 42 }
{
    line.spaced_signed(r.min);
    line.spaced_signed(r.max);
}

// Appends the lines of the fitted windows to an empty line.
#[tactic(auto, unfolding(crate::specs::Fit::fitted_text))]
fn fitted_words(line: &mut Line, f: &Delays)
    requires { line.old ≡ [] }
    ensures { line.new ≡ fitted_text f.now }
{
    line.text(b"t1a");
    range(line, f.t1a_up);
    range(line, f.t1a_cp_ul);
    line.text(b"\nta4");
    range(line, f.ta4);
    line.text(b"\nhold");
    line.spaced_signed(f.hold_dl);
    line.spaced_signed(f.hold_ul);
    line.text(b"\n");
}

// Appends the lines of a fit to an empty line, and nothing where there is none.
fn fit_words(line: &mut Line, fitted: Result<Delays, NoFit>)
    requires { line.old ≡ [] }
    ensures { line.new ≡ fitted_or_none fitted }
{
    if let Ok(f) = fitted {
        fitted_words(line, &f);
    }
}

// Tells a relation's line.
fn tell_breach<K: Sink>(
    d: &Delays,
    r: Relation,
    owed: &mut OwedBytes,
    out: &mut K,
) -> Result<(), SinkFault>
    requires { IsWithinLimits d.now }
    ensures carried { OnOk result (Carried (K.written out.old) owed.old (breach_text d.now r) (K.written out.new) owed.new) }
    ensures part { OnErr result (WritesPart (K.written out.old) (K.written out.new) (owed.old ++ breach_text d.now r)) }
    ensures cause { HasSinkCause (K.faults out.old) (K.faults out.new) (K.refusals out.old) (K.refusals out.new) result }
{
    let mut line = Line::new();
    breach_words(&mut line, r, breach(d, r));
    owed.tell(line.as_slice(), out)
}

// Tells the lines of some relations.
fn tell_breaches<K: Sink>(
    d: &Delays,
    relations: &[Relation],
    owed: &mut OwedBytes,
    out: &mut K,
) -> Result<(), SinkFault>
    requires { IsWithinLimits d.now }
    ensures carried { OnOk result (Carried (K.written out.old) owed.old (flat_map (breach_text d.now) relations.now) (K.written out.new) owed.new) }
    ensures part { OnErr result (WritesPart (K.written out.old) (K.written out.new) (owed.old ++ flat_map (breach_text d.now) relations.now)) }
    ensures cause { HasSinkCause (K.faults out.old) (K.faults out.new) (K.refusals out.old) (K.refusals out.new) result }
{
    for r in relations {
        tell_breach(d, *r, owed, out)?;
    }
    Ok(())
}

// Tells the lines of the fit.
fn tell_fit<K: Sink>(d: &Delays, owed: &mut OwedBytes, out: &mut K) -> Result<(), SinkFault>
    requires { IsWithinLimits d.now }
    ensures carried { OnOk result (Carried (K.written out.old) owed.old (fitted_or_none (fitted d.now)) (K.written out.new) owed.new) }
    ensures part { OnErr result (WritesPart (K.written out.old) (K.written out.new) (owed.old ++ fitted_or_none (fitted d.now))) }
    ensures cause { HasSinkCause (K.faults out.old) (K.faults out.new) (K.refusals out.old) (K.refusals out.new) result }
{
    let mut line = Line::new();
    fit_words(&mut line, fit(d));
    owed.tell(line.as_slice(), out)
}

/// Writes why the windows of a profile fail and the greatest that fit: `breach NAME SENT DELAY` for each relation that fails, with
/// the same two numbers of a later frame after them for a hold, and then `t1a MINUP MAXUP MINCPUL MAXCPUL`, `ta4 MIN MAX` and `hold
/// DL UL`, which are left out where `fit` refuses. Times are in nanoseconds.
///
/// # Errors
///
/// `Failed` exactly where the sink's count of faults rose, and `NoMemory` exactly where its count of refusals rose. A front part of the
/// text was written and not all.
pub fn put_fit<K: Sink>(delays: &Delays, out: &mut K) -> Result<(), SinkFault>
    requires { IsWithinLimits delays.now }
    ensures ok { OnOk result (K.written out.new ≡ append_known (K.written out.old) (fit_text delays.now)) }
    ensures front { WritesFront (K.written out.old) (K.written out.new) (fit_text delays.now) }
    ensures part { OnErr result (WritesPart (K.written out.old) (K.written out.new) (fit_text delays.now)) }
    ensures cause { HasSinkCause (K.faults out.old) (K.faults out.new) (K.refusals out.old) (K.refusals out.new) result }
{
    let mut owed = OwedBytes::new();
    tell_breaches(delays, &RELATIONS, &mut owed, out)?;
    tell_fit(delays, &mut owed, out)?;
    owed.push_out(out)
}
