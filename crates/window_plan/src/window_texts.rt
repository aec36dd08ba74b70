// The text of the windows.
ghost use Rattle.std.specs.Prelude.{◌≡◌, ◌+◌, ◌≤◌, ◌++◌, [], length, OnOk, OnErr};
ghost use Rattle.std.specs.Io.KnownBytes.{append_known};
ghost use Rattle.fh_base.specs.Causes.{HasSinkCause};
ghost use Rattle.fh_base.specs.Told.{WritesFront, WritesPart};
ghost use Rattle.fh_base.specs.Owed.{Carried};
ghost use Rattle.window_config.specs.Configs.{IsConfig};
ghost use Rattle.window_config.specs.Limits.{IsReach, IsWithinLimits};
ghost use Rattle.window_config.specs.Relations.{checked};
ghost use Rattle.window_plan.specs.Windows.{window_text, t1a_text, t2a_text, profile_text, ring_text, rings_text, check_text, windows_text};

use fh_base::{Line, OwedBytes, Sink, SinkFault};
use window_config::{
    Config, Delays, EndpointConfig, Failing, Range, Reach, check, cp_dl, du_reach, ring_slots,
    ru_reach,
};

// Appends the line of a window.
fn window(line: &mut Line, name: &[u8], r: Range)
    requires { length line.old + length name.now + 43 ≤ 512 }
    ensures text { line.new ≡ line.old ++ window_text name.now r }
    ensures short { length line.new ≤ length line.old + length name.now + 43 }
{
    line.text(name);
    line.spaced_signed(r.min);
    line.spaced_signed(r.max);
    line.text(b"\n");
}

// Appends the windows of the DU before a symbol.
#[tactic(auto, unfolding(crate::specs::Windows::t1a_text))]
fn t1a(line: &mut Line, d: &Delays)
    requires limits { IsWithinLimits d.now }
    requires room { length line.old ≤ 153 }
    ensures text { line.new ≡ line.old ++ t1a_text d.now }
    ensures short { length line.new ≤ length line.old + 153 }
{
    window(line, b"t1a_up", d.t1a_up);
    window(line, b"t1a_cp_dl", cp_dl(d.t1a_up, d.advance));
    window(line, b"t1a_cp_ul", d.t1a_cp_ul);
}

// Appends the windows of the RU before a symbol.
#[tactic(auto, unfolding(crate::specs::Windows::t2a_text))]
fn t2a(line: &mut Line, d: &Delays)
    requires limits { IsWithinLimits d.now }
    requires room { length line.old ≤ 153 }
    ensures text { line.new ≡ line.old ++ t2a_text d.now }
    ensures short { length line.new ≤ length line.old + 153 }
{
    window(line, b"t2a_up", d.t2a_up);
    window(line, b"t2a_cp_dl", cp_dl(d.t2a_up, d.advance));
    window(line, b"t2a_cp_ul", d.t2a_cp_ul);
}

// Appends the eight windows to an empty line.
#[tactic(auto, unfolding(crate::specs::Windows::profile_text))]
fn profile(line: &mut Line, d: &Delays)
    requires limits { IsWithinLimits d.now }
    requires empty { line.old ≡ [] }
    ensures { line.new ≡ profile_text d.now }
{
    t1a(line, d);
    t2a(line, d);
    window(line, b"ta3", d.ta3);
    window(line, b"ta4", d.ta4);
}

// Appends an endpoint's line to an empty line.
#[tactic(auto, unfolding(crate::specs::Windows::ring_text))]
fn ring(line: &mut Line, e: &EndpointConfig, ru: Reach, du: Reach)
    requires empty { line.old ≡ [] }
    requires ru { IsReach ru }
    requires du { IsReach du }
    ensures { line.new ≡ ring_text ru du e.now }
{
    line.text(b"ring ");
    line.hex4(e.id);
    line.spaced(ring_slots(&e.numerology, ru.before, ru.after) as u64);
    line.spaced(ring_slots(&e.numerology, du.before, du.after) as u64);
    line.text(b"\n");
}

// Appends the line of the check to an empty line.
#[tactic(auto, unfolding(crate::specs::Windows::check_text))]
fn verdict(line: &mut Line, checked: Result<(), Failing>)
    requires { line.old ≡ [] }
    ensures { line.new ≡ check_text checked }
{
    match checked {
        Ok(()) => line.text(b"check ok\n"),
        Err(failing) => {
            line.text(b"check fails ");
            line.text(failing.relation.name().as_bytes());
            line.spaced_signed(failing.left);
            line.spaced_signed(failing.right);
            line.text(b"\n");
        }
    }
}

// Tells the windows.
fn tell_profile<K: Sink>(d: &Delays, owed: &mut OwedBytes, out: &mut K) -> Result<(), SinkFault>
    requires { IsWithinLimits d.now }
    ensures carried { OnOk result (Carried (K.written out.old) owed.old (profile_text d.now) (K.written out.new) owed.new) }
    ensures part { OnErr result (WritesPart (K.written out.old) (K.written out.new) (owed.old ++ profile_text d.now)) }
    ensures cause { HasSinkCause (K.faults out.old) (K.faults out.new) (K.refusals out.old) (K.refusals out.new) result }
{
    let mut line = Line::new();
    profile(&mut line, d);
    owed.tell(line.as_slice(), out)
}

// Tells an endpoint's line.
fn tell_ring<K: Sink>(
    e: &EndpointConfig,
    ru: Reach,
    du: Reach,
    owed: &mut OwedBytes,
    out: &mut K,
) -> Result<(), SinkFault>
    requires ru { IsReach ru }
    requires du { IsReach du }
    ensures carried { OnOk result (Carried (K.written out.old) owed.old (ring_text ru du e.now) (K.written out.new) owed.new) }
    ensures part { OnErr result (WritesPart (K.written out.old) (K.written out.new) (owed.old ++ ring_text ru du e.now)) }
    ensures cause { HasSinkCause (K.faults out.old) (K.faults out.new) (K.refusals out.old) (K.refusals out.new) result }
{
    let mut line = Line::new();
    ring(&mut line, e, ru, du);
    owed.tell(line.as_slice(), out)
}

// Tells the lines of the endpoints.
fn tell_rings<K: Sink>(
    endpoints: &[EndpointConfig],
    d: &Delays,
    owed: &mut OwedBytes,
    out: &mut K,
) -> Result<(), SinkFault>
    requires { IsWithinLimits d.now }
    ensures carried { OnOk result (Carried (K.written out.old) owed.old (rings_text d.now endpoints.now) (K.written out.new) owed.new) }
    ensures part { OnErr result (WritesPart (K.written out.old) (K.written out.new) (owed.old ++ rings_text d.now endpoints.now)) }
    ensures cause { HasSinkCause (K.faults out.old) (K.faults out.new) (K.refusals out.old) (K.refusals out.new) result }
{
    let ru = ru_reach(d);
    let du = du_reach(d);
    for e in endpoints {
        tell_ring(e, ru, du, owed, out)?;
    }
    Ok(())
}

// Tells the line of the check.
fn tell_check<K: Sink>(d: &Delays, owed: &mut OwedBytes, out: &mut K) -> Result<(), SinkFault>
    requires { IsWithinLimits d.now }
    ensures carried { OnOk result (Carried (K.written out.old) owed.old (check_text (checked d.now)) (K.written out.new) owed.new) }
    ensures part { OnErr result (WritesPart (K.written out.old) (K.written out.new) (owed.old ++ check_text (checked d.now))) }
    ensures cause { HasSinkCause (K.faults out.old) (K.faults out.new) (K.refusals out.old) (K.refusals out.new) result }
{
    let mut line = Line::new();
    verdict(&mut line, check(d));
    owed.tell(line.as_slice(), out)
}

/// Writes the windows of a configuration: a line for each of the eight windows with its minimum and maximum in nanoseconds, `ring ID
/// RU DU` for each endpoint with the slots that each unit holds for it, and `check ok` or `check fails NAME LEFT RIGHT`.
///
/// # Errors
///
/// `Failed` exactly where the sink's count of faults rose, and `NoMemory` exactly where its count of refusals rose. A front part of the
/// text was written and not all.
pub fn put_windows<K: Sink>(config: &Config, out: &mut K) -> Result<(), SinkFault>
    requires { IsConfig config.now }
    ensures ok { OnOk result (K.written out.new ≡ append_known (K.written out.old) (windows_text config.now)) }
    ensures front { WritesFront (K.written out.old) (K.written out.new) (windows_text config.now) }
    ensures part { OnErr result (WritesPart (K.written out.old) (K.written out.new) (windows_text config.now)) }
    ensures cause { HasSinkCause (K.faults out.old) (K.faults out.new) (K.refusals out.old) (K.refusals out.new) result }
{
    let mut owed = OwedBytes::new();
    tell_profile(&config.delays, &mut owed, out)?;
    tell_rings(config.endpoints.as_slice(), &config.delays, &mut owed, out)?;
    tell_check(&config.delays, &mut owed, out)?;
    owed.push_out(out)
}
