// Texts that are refused, before anything is written.
use crate::draw_texts::SHOWN;
use crate::worked_pictures::windows;
use fh_base::{Bytes, PlainSink};
use pictures::{DrawFault, TextWhy, draw_grid};
use std::alloc::Global;
use std::process::Abort;
use std::test::Fail;

const HEAD: &[u8] =
    b"explain 1\nwindow t1a_up 234000 345000\nwindow t1a_cp_dl 359000 470000\nwindow t1a_cp_ul 225000 470000\nwindow t2a_up 134000 345000\nwindow t2a_cp_dl 259000 470000\nwindow t2a_cp_ul 125000 470000\nwindow ta3 50000 171000\nwindow ta4 50000 271000\nendpoint 0000 ordinary 30 106 static none\n";

fn refused<T>(line: usize, why: TextWhy) -> Result<T, DrawFault> {
    Err(DrawFault::Refused { line, why })
}

fn grid_is_refused(rt: &impl Abort, alloc: Global, text: &[u8], line: usize, why: TextWhy) {
    let mut out = PlainSink::new(alloc);
    assert_eq!(rt;
        draw_grid(alloc, text, 1, 0, 1, &mut out),
        refused(line, why)
    );
    assert_eq!(rt; out.bytes().len(), 0);
}

fn windows_are_refused(rt: &impl Abort, alloc: Global, text: &[u8], line: usize, why: TextWhy) {
    let mut out = PlainSink::new(alloc);
    assert_eq!(rt; windows(alloc, text, &mut out), refused(line, why));
    assert_eq!(rt; out.bytes().len(), 0);
}

fn text_with(alloc: Global, lines: &[u8]) -> Result<Bytes, Fail> {
    let mut text = Bytes::new(alloc);
    text.push_all(HEAD)?;
    text.push_all(lines)?;
    text.push_all(b"\nend\n")?;
    Ok(text)
}

#[test]
fn a_cut_text_has_no_end(rt: HostRuntime) {
    let alloc = rt.alloc();
    let mut lines: usize = 0;
    for at in 0..SHOWN.len() {
        if SHOWN[at] == b'\n' && at + 1 < SHOWN.len() {
            lines = lines.saturating_add(1);
            let next = lines.saturating_add(1);
            grid_is_refused(&rt, alloc, &SHOWN[..at], next, TextWhy::End);
            windows_are_refused(&rt, alloc, &SHOWN[..at + 1], next, TextWhy::End);
        }
    }
}

#[test]
fn a_text_has_a_head(rt: HostRuntime) {
    let alloc = rt.alloc();
    for text in [
        b"".as_slice(),
        b"\n",
        b"explain 1 faults\nend\n",
        b"explain 2\nend\n",
    ] {
        grid_is_refused(&rt, alloc, text, 1, TextWhy::Head);
        windows_are_refused(&rt, alloc, text, 1, TextWhy::Head);
    }
}

#[test]
fn no_line_comes_after_the_end(rt: HostRuntime) -> Result<(), Fail> {
    let alloc = rt.alloc();
    let text = text_with(alloc, b"end")?;
    grid_is_refused(&rt, alloc, text.as_slice(), 12, TextWhy::End);
    windows_are_refused(&rt, alloc, text.as_slice(), 12, TextWhy::End);
    Ok(())
}

#[test]
fn each_byte_is_text(rt: HostRuntime) -> Result<(), Fail> {
    let alloc = rt.alloc();
    let text = text_with(alloc, b"count ru\x7fframes 2")?;
    grid_is_refused(&rt, alloc, text.as_slice(), 11, TextWhy::NotText);
    windows_are_refused(&rt, alloc, text.as_slice(), 11, TextWhy::NotText);
    Ok(())
}

#[test]
fn a_grid_line_has_its_form_and_place(rt: HostRuntime) -> Result<(), Fail> {
    let alloc = rt.alloc();
    for line in [
        b"dl 15360000000 0000 1 0 0 0 prb=0 num=1 section=1 mask=fff shown from=x".as_slice(),
        b"dl 15360000000 0000 1 0 0 0 prb=0 num=1 section=1 mask=fff shown",
        b"dl 15360000000 0001 1 0 0 0 prb=0 num=1 section=1 mask=fff missing",
        b"dl 15360000000 0000 1 0 0 0 prb=106 num=1 section=1 mask=fff missing",
        b"dl 15360000000 0000 1 0 0 0 prb=0 num=0 section=1 mask=fff missing",
        b"dl 15360000000 0000 1 0 2 0 prb=0 num=1 section=1 mask=fff missing",
        b"dl 15360000000 0000 1 0 0 14 prb=0 num=1 section=1 mask=fff missing",
        b"dl 15360000000 0000 1 10 0 0 prb=0 num=1 section=1 mask=fff missing",
        b"dl 12345678901234567 0000 1 0 0 0 prb=0 num=1 section=1 mask=fff missing",
        b"ul 15360000000 0000 1 0 0 0 prb=0 num=1 section=1 mask=FFF missing",
        b"ul 15360000000 0000 1 0 0 0 prb=0 num=1 section=1 mask=fff missing x",
        b"why xl 15360000000 0000 1 0 0 0 prb=0 num=1 section=1 mask=fff missing nodata",
        b"why dl 15360000000 0000 1 0 0 0 prb=0 num=1 section=1 mask=fff missing nothing",
        b"why dl 15360000000 0000 1 0 0 0 prb=0 num=1 section=1 mask=fff missing late by=1 from=2 a b",
        b"why dl 15360000000 0000 1 0 0 0 prb=0 num=1 section=1 mask=fff missing late by=1 <b>",
        b"why dl 15360000000 0000 1 0 0 0 prb=0 num=1 section=1 mask=fff line=4 silent nodata",
        b"why dl 15360000000 0000 1 0 0 0 prb=0 num=1 section=1 mask=fff line=x silent nocommand",
        b"endpoint 0000 ordinary 30 106 static none",
        b"endpoint 000A ordinary 30 106 static none",
        b"endpoint 0001 ordinary 1.25 106 static none",
        b"endpoint 0001 extended 30 106 static none",
        b"endpoint 0001 ordinary 30 274 static none",
        b"endpoint 0001 ordinary 30 0 static none",
        b"endpoint 0001 ordinary 30 106 fixed none",
        b"endpoint 0001 ordinary 30 106 static bfp",
        b"endpoint 0001 offset 1.25 6 static none",
        b"endpoint 0001 offset 1.25 6 static none 65536 0",
    ] {
        let text = text_with(alloc, line)?;
        grid_is_refused(&rt, alloc, text.as_slice(), 11, TextWhy::Line);
    }
    Ok(())
}

#[test]
fn a_window_line_has_its_form_and_place(rt: HostRuntime) -> Result<(), Fail> {
    let alloc = rt.alloc();
    for line in [
        b"window t1a_up 234000 345000".as_slice(),
        b"frame x dl 14745600000 24 ok",
        b"frame 1 xl 14745600000 24 ok",
        b"c 1 0000 1 0 0 0 section=1 prb=0 num=1 symbols=1 mask=fff accepted since=70000 until=141000",
        b"u 2 0000 1 0 0 0 section=1 prb=0 num=1 taken since=45000 until=166000",
    ] {
        let text = text_with(alloc, line)?;
        windows_are_refused(&rt, alloc, text.as_slice(), 11, TextWhy::Line);
    }
    for line in [
        b"frame 1 ul 0 24 ok\nc 1 0000 1 0 0 0 section=1 prb=0 num=1 symbols=1 mask=fff accepted since=0 until=0".as_slice(),
        b"frame 1 dl 0 24 ok\nc 1 0000 1 0 0 0 section=1 prb=0 num=1 symbols=1 mask=fff taken since=0 until=0",
        b"frame 1 dl 0 24 ok\nc 1 0000 1 0 0 0 section=1 prb=0 num=1 symbols=1 mask=fff idle uplink full since=0 until=0",
        b"frame 1 dl 0 24 ok\nc 1 0000 1 0 0 0 section=1 prb=0 num=1 mask=fff accepted since=0 until=0",
        b"frame 1 dl 0 24 ok\nu 2 0000 1 0 0 0 section=1 prb=0 num=1 taken until=0",
        b"frame 1 dl 0 24 ok\nu 2 0000 1 0 0 0 section=1 prb=0 num=1 accepted since=0 until=0",
    ] {
        let text = text_with(alloc, line)?;
        windows_are_refused(&rt, alloc, text.as_slice(), 12, TextWhy::Line);
    }
    Ok(())
}

#[test]
fn windows_stand_in_their_lines(rt: HostRuntime) {
    let alloc = rt.alloc();
    let text = b"explain 1\nwindow t1a_up 2 1\nend\n";
    windows_are_refused(&rt, alloc, text, 2, TextWhy::Line);
    let text = b"explain 1\nwindow t1a_up 1 2\nwindow t1a_cp_ul 1 2\nend\n";
    windows_are_refused(&rt, alloc, text, 3, TextWhy::Line);
    let text = b"explain 1\nwindow t1a_up 1 4000001\nend\n";
    windows_are_refused(&rt, alloc, text, 2, TextWhy::Line);
    windows_are_refused(&rt, alloc, b"explain 1\nend\n", 2, TextWhy::Line);
}
