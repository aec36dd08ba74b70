// What arrived, and when.
ghost use Rattle.std.specs.Prelude.{◌≡◌, pos, neg_ℤ, ◌^◌, ◌≤◌, ◌≤ℤ◌, IfSome};
ghost use Rattle.pictures.specs.Arrivals.{opens_of, closes_of, awaited_of, kind_of, first_of, end_of, last_of, arrival_of, IsMargin};

use crate::windows::{Window, Windows, column_of};

/// What arrives at a unit.
#[derive(Clone, Copy, Debug, PartialEq, Eq)]
pub enum Flow {
    DownlinkCommands,
    UplinkCommands,
    DownlinkData,
    UplinkData,
}

/// How a section lies to its window.
#[derive(Clone, Copy, Debug, PartialEq, Eq)]
pub enum Kind {
    OnTime,
    Late,
    Early,
}

/// How long after the opening of its window the message of a section began to arrive, and how long before the closing it was there.
#[derive(Clone, Copy, Debug, PartialEq, Eq)]
pub struct Margins {
    pub since: i64,
    pub until: i64,
}

/// A section that arrived: the columns of the first arrival of its message and, where it is another one, of the last, and its margins.
#[derive(Clone, Copy, Debug, PartialEq, Eq)]
pub struct Arrival {
    pub flow: Flow,
    pub kind: Kind,
    pub first: u32,
    pub last: Option<u32>,
    pub margins: Margins,
}

/// The window in which a flow is awaited.
pub(crate) fn awaited_of(windows: &Windows, flow: Flow) -> Window
    ensures { result ≡ awaited_of windows.now flow }
{
    match flow {
        Flow::DownlinkCommands => windows.t2a_cp_dl,
        Flow::UplinkCommands => windows.t2a_cp_ul,
        Flow::DownlinkData => windows.t2a_up,
        Flow::UplinkData => windows.ta4,
    }
}

/// When a window opens, in nanoseconds after the symbol: those of the radio unit lie before it.
pub(crate) fn opens_of(flow: Flow, window: Window) -> i64
    ensures value { result ≡ opens_of flow window }
    ensures low { neg_ℤ (pos (2 ^ 32)) ≤ℤ result }
    ensures high { result ≤ℤ pos (2 ^ 32) }
{
    match flow {
        Flow::UplinkData => i64::from(window.min),
        _ => -i64::from(window.max),
    }
}

/// When it closes.
pub(crate) fn closes_of(flow: Flow, window: Window) -> i64
    ensures value { result ≡ closes_of flow window }
    ensures low { neg_ℤ (pos (2 ^ 32)) ≤ℤ result }
    ensures high { result ≤ℤ pos (2 ^ 32) }
{
    match flow {
        Flow::UplinkData => i64::from(window.max),
        _ => -i64::from(window.min),
    }
}

fn kind_of(margins: Margins) -> Kind
    ensures { result ≡ kind_of margins }
{
    if margins.until < 0 {
        return Kind::Late;
    }
    if margins.since < 0 {
        return Kind::Early;
    }
    Kind::OnTime
}

/// When the first arrival of a message was, in nanoseconds after the symbol.
fn first_of(flow: Flow, window: Window, margins: Margins) -> i64
    requires { IsMargin margins.since }
    ensures value { result ≡ first_of flow window margins }
    ensures low { neg_ℤ (pos (2 ^ 60)) ≤ℤ result }
    ensures high { result ≤ℤ pos (2 ^ 60) }
{
    opens_of(flow, window) + margins.since
}

/// When the last one was.
fn end_of(flow: Flow, window: Window, margins: Margins) -> i64
    requires { IsMargin margins.until }
    ensures value { result ≡ end_of flow window margins }
    ensures low { neg_ℤ (pos (2 ^ 60)) ≤ℤ result }
    ensures high { result ≤ℤ pos (2 ^ 60) }
{
    closes_of(flow, window) - margins.until
}

/// The column of the last arrival, where it is more than a nanosecond after the first. (Both were rounded down.)
fn last_of(windows: &Windows, first: i64, last: i64) -> Option<u32>
    requires first_low { neg_ℤ (pos (2 ^ 60)) ≤ℤ first }
    requires first_high { first ≤ℤ pos (2 ^ 60) }
    requires last_low { neg_ℤ (pos (2 ^ 60)) ≤ℤ last }
    requires last_high { last ≤ℤ pos (2 ^ 60) }
    ensures value { result ≡ last_of windows.now first last }
    ensures within { IfSome result (λ column. column ≤ 1040) }
{
    if last <= first + 1 {
        return None;
    }
    Some(column_of(windows, last))
}

/// The arrival of a section with its margins.
#[tactic(auto, unfolding(crate::specs::Arrivals::arrival_of))]
pub(crate) fn arrival_of(windows: &Windows, flow: Flow, margins: Margins) -> Arrival
    requires since { IsMargin margins.since }
    requires until { IsMargin margins.until }
    ensures value { result ≡ arrival_of windows.now flow margins }
    ensures first { result.first ≤ 1040 }
    ensures last { IfSome result.last (λ column. column ≤ 1040) }
{
    let window = awaited_of(windows, flow);
    let first = first_of(flow, window, margins);
    let last = end_of(flow, window, margins);
    Arrival {
        flow,
        kind: kind_of(margins),
        first: column_of(windows, first),
        last: last_of(windows, first, last),
        margins,
    }
}
