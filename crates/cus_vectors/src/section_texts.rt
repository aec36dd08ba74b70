// Headers and sections of the C-plane as text.
use cplane_sections::{CBody, CHead, CSection};
use std::alloc::{AllocError, Global};

/// A header: its section type and its fields.
pub fn head_text(alloc: Global, head: &CHead) -> Result<String, AllocError> {
    let body = body_text(alloc, head.body)?;
    let way = if head.down { "down" } else { "up" };
    let filter = head.filter;
    let frame = head.frame_id;
    let subframe = head.subframe;
    let slot = head.slot;
    let symbol = head.start_symbol;
    let count = head.count;
    let place = format!(in alloc; "frame {frame} subframe {subframe} slot {slot} symbol {symbol}")?;
    format!(in alloc; "{way} filter {filter} {place} sections {count} {body}")
}

fn body_text(alloc: Global, body: CBody) -> Result<String, AllocError> {
    match body {
        CBody::Idle {
            time_offset,
            structure,
            cp_length,
        } => format!(in alloc;
            "type 0 offset {time_offset} structure {structure} prefix {cp_length}"
        ),
        CBody::Normal { comp } => format!(in alloc; "type 1 compression {comp}"),
        CBody::Offset {
            time_offset,
            structure,
            cp_length,
            comp,
        } => {
            format!(in alloc;
                "type 3 offset {time_offset} structure {structure} prefix {cp_length} compression {comp}"
            )
        }
    }
}

/// A section, on a line of its own.
pub fn section_text(alloc: Global, section: &CSection) -> Result<String, AllocError> {
    let id = section.id;
    let step = section.sym_inc as u8;
    let symbol = section.symbol;
    let start = section.start_prb;
    let count = section.num_prb;
    let mask = section.mask;
    let symbols = section.num_symbol;
    let beam = section.beam;
    let frequency = section.freq_offset;
    let place = format!(in alloc;
        "step {step} symbol {symbol} symbols {symbols} prb {start} prbs {count} mask {mask:03x}"
    )?;
    format!(in alloc; "\n  section {id} {place} beam {beam} frequency {frequency}")
}
