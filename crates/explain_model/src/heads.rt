// The lines above all others.
ghost use Rattle.std.specs.Prelude.{◌≡◌, ◌+◌, ◌≤◌, ◌++◌, [], length};
ghost use Rattle.explain_model.specs.Lines.{head_text, window_text, kind_text, spacing_text, mode_text, method_text, offsets_text, endpoint_text};

use crate::values::WindowName;
use crate::words::id;
use bfp_codec::Method;
use fh_base::{Line, Numerology, code, offsets, shape};
use window_config::EndpointConfig;

/// The first line.
pub fn head(faults: bool) -> &'static [u8]
    ensures text { result.now ≡ head_text faults }
    ensures short { length result.now ≤ 17 }
{
    if faults {
        b"explain 1 faults\n"
    } else {
        b"explain 1\n"
    }
}

/// The name of a window.
pub fn window_name(name: WindowName) -> &'static [u8]
    ensures text { result.now ≡ window_text name }
    ensures short { length result.now ≤ 9 }
{
    match name {
        WindowName::T1aUp => b"t1a_up",
        WindowName::T1aCpDl => b"t1a_cp_dl",
        WindowName::T1aCpUl => b"t1a_cp_ul",
        WindowName::T2aUp => b"t2a_up",
        WindowName::T2aCpDl => b"t2a_cp_dl",
        WindowName::T2aCpUl => b"t2a_cp_ul",
        WindowName::Ta3 => b"ta3",
        WindowName::Ta4 => b"ta4",
    }
}

fn kind(n: &Numerology) -> &'static [u8]
    ensures text { result.now ≡ kind_text n.now }
    ensures short { length result.now ≤ 8 }
{
    if offsets(n).is_some() {
        b"offset"
    } else if shape(n).symbols == 12 {
        b"extended"
    } else {
        b"ordinary"
    }
}

fn spacing(code: u8) -> &'static [u8]
    ensures text { result.now ≡ spacing_text code }
    ensures short { length result.now ≤ 4 }
{
    match code {
        0 => b"15",
        1 => b"30",
        2 => b"60",
        3 => b"120",
        4 => b"240",
        12 => b"1.25",
        _ => b"5",
    }
}

fn mode(dynamic: bool) -> &'static [u8]
    ensures text { result.now ≡ mode_text dynamic }
    ensures short { length result.now ≤ 8 }
{
    if dynamic { b" dynamic" } else { b" static" }
}

fn method_words(line: &mut Line, method: Method)
    requires { length line.old + 24 ≤ 512 }
    ensures text { line.new ≡ line.old ++ method_text method }
    ensures short { length line.new ≤ length line.old + 24 }
{
    match method {
        Method::Plain => line.text(b" none"),
        Method::Bfp(width) => {
            line.text(b" bfp");
            line.number(u64::from(width));
        }
    }
}

fn offset_words(line: &mut Line, offsets: Option<(u16, u16)>)
    requires { length line.old + 42 ≤ 512 }
    ensures text { line.new ≡ line.old ++ offsets_text offsets }
    ensures short { length line.new ≤ length line.old + 42 }
{
    if let Some((time_offset, cp_length)) = offsets {
        line.spaced(u64::from(time_offset));
        line.spaced(u64::from(cp_length));
    }
}

/// Appends the line of an endpoint to an empty line.
#[tactic(auto, unfolding(crate::specs::Lines::endpoint_text))]
pub fn endpoint(line: &mut Line, e: &EndpointConfig)
    requires { line.old ≡ [] }
    ensures { line.new ≡ endpoint_text e.now }
{
    line.text(b"endpoint");
    id(line, e.id);
    line.text(b" ");
    line.text(kind(&e.numerology));
    line.text(b" ");
    line.text(spacing(code(&e.numerology)));
    line.spaced(u64::from(e.prbs));
    line.text(mode(e.format.dynamic));
    method_words(line, e.format.method);
    offset_words(line, offsets(&e.numerology));
    line.text(b"\n");
}
