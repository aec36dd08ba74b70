// What is before the events.
ghost use Rattle.std.specs.Prelude.{◌≡◌, IfErr, OnOk};
ghost use Rattle.air_source.specs.Causes.{HasAirCause};
ghost use Rattle.explain_model.specs.declared.values.ExplainLine.TheVariants as line;
ghost use Rattle.explain_model.specs.Text.{endpoint_lines, first_lines, window_lines};
ghost use Rattle.explain_heard.specs.Stops.{StopsInLine};
ghost use Rattle.window_config.specs.Configs.{IsConfig};
ghost use Rattle.window_config.specs.Limits.{IsWithinLimits};
ghost use Rattle.window_config.specs.Windows.{cp_dl_of};

use air_source::AirFault;
use explain_heard::LineSink;
use explain_model::{ExplainLine, WindowName};
use window_config::{Config, Delays, EndpointConfig, Range, command_window, cp_dl};

/// The line of a window.
fn window(name: WindowName, range: Range) -> ExplainLine
    ensures { result ≡ line.Window name range }
{
    ExplainLine::Window { name, range }
}

/// The window in which downlink commands leave.
fn commands_leave(d: &Delays) -> Range
    requires { IsWithinLimits d.now }
    ensures { result ≡ cp_dl_of d.now.t1a_up d.now.advance }
{
    cp_dl(d.t1a_up, d.advance)
}

/// The lines of the windows.
fn window_lines(d: &Delays) -> [ExplainLine; 8]
    requires { IsWithinLimits d.now }
    ensures { result ≡ window_lines d.now }
{
    [
        window(WindowName::T1aUp, d.t1a_up),
        window(WindowName::T1aCpDl, commands_leave(d)),
        window(WindowName::T1aCpUl, d.t1a_cp_ul),
        window(WindowName::T2aUp, d.t2a_up),
        window(WindowName::T2aCpDl, command_window(d, true)),
        window(WindowName::T2aCpUl, d.t2a_cp_ul),
        window(WindowName::Ta3, d.ta3),
        window(WindowName::Ta4, d.ta4),
    ]
}

/// Tells some lines.
fn tell_lines<W: LineSink>(lines: &[ExplainLine], out: &mut W) -> Result<(), AirFault>
    ensures heard { OnOk result (W.grew out.old lines.now out.new) }
    ensures stop { IfErr result (λ f. StopsInLine W.grew (W.stopped f) lines.now out.old out.new) }
    ensures same { W.same out.old out.new }
    ensures cause { HasAirCause (W.faults out.old) (W.faults out.new) result }
{
    for line in lines {
        out.put(line)?;
    }
    Ok(())
}

/// Tells the lines of some endpoints.
fn tell_endpoints<W: LineSink>(endpoints: &[EndpointConfig], out: &mut W) -> Result<(), AirFault>
    ensures heard { OnOk result (W.grew out.old (endpoint_lines endpoints.now) out.new) }
    ensures stop { IfErr result (λ f. StopsInLine W.grew (W.stopped f) (endpoint_lines endpoints.now) out.old out.new) }
    ensures same { W.same out.old out.new }
    ensures cause { HasAirCause (W.faults out.old) (W.faults out.new) result }
{
    for endpoint in endpoints {
        out.put(&ExplainLine::Endpoint(*endpoint))?;
    }
    Ok(())
}

/// Tells the lines of the configuration: its windows and its endpoints.
pub(crate) fn tell_first<W: LineSink>(config: &Config, out: &mut W) -> Result<(), AirFault>
    requires { IsConfig config.now }
    ensures heard { OnOk result (W.grew out.old (first_lines config.now) out.new) }
    ensures stop { IfErr result (λ f. StopsInLine W.grew (W.stopped f) (first_lines config.now) out.old out.new) }
    ensures same { W.same out.old out.new }
    ensures cause { HasAirCause (W.faults out.old) (W.faults out.new) result }
{
    tell_lines(&window_lines(&config.delays), out)?;
    tell_endpoints(config.endpoints.as_slice(), out)
}
