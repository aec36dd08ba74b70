// The windows of a text, and where times are among them.
ghost use Rattle.std.specs.Prelude.{◌≡◌, ℕ, pos, neg_ℤ, ◌^◌, ◌<◌, ◌≤◌, ◌≤ℤ◌};
ghost use Rattle.pictures.specs.Windows.{window_name, window_in, far_of, near_of, column_of, no_windows, with_window};

use crate::numbers::numeral;
use crate::scales::{or_zero, scaled};
use line_words::Words;

/// A window, in nanoseconds.
#[derive(Clone, Copy, Debug, PartialEq, Eq)]
pub struct Window {
    pub min: u32,
    pub max: u32,
}

/// The eight windows of a text: when a distributed unit sends before the air (T1a), when a radio unit takes in (T2a), when a radio
/// unit sends after the air (Ta3), and when a distributed unit takes in (Ta4).
#[derive(Clone, Copy, Debug, PartialEq, Eq)]
pub struct Windows {
    pub t1a_up: Window,
    pub t1a_cp_dl: Window,
    pub t1a_cp_ul: Window,
    pub t2a_up: Window,
    pub t2a_cp_dl: Window,
    pub t2a_cp_ul: Window,
    pub ta3: Window,
    pub ta4: Window,
}

/// The name of the window of a line, from line 2 to line 9.
fn window_name(n: usize) -> &'static [u8]
    ensures { result.now ≡ window_name n }
{
    match n {
        2 => b"t1a_up",
        3 => b"t1a_cp_dl",
        4 => b"t1a_cp_ul",
        5 => b"t2a_up",
        6 => b"t2a_cp_dl",
        7 => b"t2a_cp_ul",
        8 => b"ta3",
        _ => b"ta4",
    }
}

/// The window that the words of a line say, by its number.
pub(crate) fn window_in(n: usize, words: &Words<'_>) -> Option<Window>
    ensures { result ≡ window_in n words.now }
{
    if words.len() != 4
        || words.word(0) != b"window".as_slice()
        || words.word(1) != window_name(n)
    {
        return None;
    }
    let max = numeral(words.word(3), 0, 4_000_000)?;
    let min = numeral(words.word(2), 0, max)?;
    Some(Window {
        min: min as u32,
        max: max as u32,
    })
}

impl Windows {
    /// Windows of no width.
    pub(crate) fn new() -> Windows
        ensures { result ≡ no_windows }
    {
        let none = Window { min: 0, max: 0 };
        Windows {
            t1a_up: none,
            t1a_cp_dl: none,
            t1a_cp_ul: none,
            t2a_up: none,
            t2a_cp_dl: none,
            t2a_cp_ul: none,
            ta3: none,
            ta4: none,
        }
    }

    /// Puts the window of a line.
    pub(crate) fn put(&mut self, n: usize, window: Window)
        ensures { self.new ≡ with_window n window self.old }
    {
        match n {
            2 => self.t1a_up = window,
            3 => self.t1a_cp_dl = window,
            4 => self.t1a_cp_ul = window,
            5 => self.t2a_up = window,
            6 => self.t2a_cp_dl = window,
            7 => self.t2a_cp_ul = window,
            8 => self.ta3 = window,
            _ => self.ta4 = window,
        }
    }
}

/// How far before the symbol a picture reaches, in nanoseconds.
#[tactic(auto, unfolding(crate::specs::Windows::far_of))]
pub fn far_of(windows: &Windows) -> u64
    ensures value { result ≡ far_of windows.now }
    ensures low { 40000 ≤ result }
    ensures small { result < 2 ^ 33 }
{
    let sent = windows
        .t1a_up
        .max
        .max(windows.t1a_cp_dl.max)
        .max(windows.t1a_cp_ul.max);
    let awaited = windows
        .t2a_up
        .max
        .max(windows.t2a_cp_dl.max)
        .max(windows.t2a_cp_ul.max);
    u64::from(sent.max(awaited)) + 40_000
}

/// How far after the symbol a picture reaches, in nanoseconds.
#[tactic(auto, unfolding(crate::specs::Windows::near_of))]
pub fn near_of(windows: &Windows) -> u64
    ensures value { result ≡ near_of windows.now }
    ensures low { 60000 ≤ result }
    ensures small { result < 2 ^ 33 }
{
    u64::from(windows.ta3.max.max(windows.ta4.max)) + 60_000
}

/// The column of a time before or after the symbol, in nanoseconds; the outermost ones hold all that is farther out.
#[tactic(auto, unfolding(crate::specs::Windows::column_of))]
pub fn column_of(windows: &Windows, ns: i64) -> u32
    requires low { neg_ℤ (pos (2 ^ 60)) ≤ℤ ns }
    requires high { ns ≤ℤ pos (2 ^ 60) }
    ensures value { result ≡ column_of windows.now ns }
    ensures within { result ≤ 1040 }
{
    let far = far_of(windows);
    scaled(or_zero(ns + far as i64), far + near_of(windows), 1_040)
}
