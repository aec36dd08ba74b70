// Which elements the cells of a symbol have.
ghost use Rattle.std.specs.Prelude.{◌≡◌, ◌==◌, ◌&&◌, if◌then◌else◌, bit_or, ℕ};
ghost use Rattle.std.specs.List.{list_any};
ghost use Rattle.unit_model.specs.Claims.{in_mask, is_from};
ghost use Rattle.why_lines.specs.Silent.{has_element, silent_mask_by};

use explain_model::CellRun;
use unit_model::is_from;

/// The bits of all twelve elements.
const ALL: u16 = 0xFFF;

/// These elements, and those that a run of cells has at a PRB of the endpoint with an id.
fn heard_with(heard: u16, run: &CellRun, id: u16, prb: u16) -> u16
    ensures { result ≡ (if (run.now.id == id) && is_from run.now.prb run.now.count prb then bit_or heard run.now.mask else heard) }
{
    if run.id == id && is_from(run.prb, run.count, prb) {
        heard | run.mask
    } else {
        heard
    }
}

/// The elements that the cells of a symbol have at a PRB of the endpoint with an id.
fn heard_mask(cells: &[CellRun], id: u16, prb: u16) -> u16
    ensures { (re : ℕ) → in_mask result re ≡ list_any (has_element id prb re) cells.now }
{
    let mut heard = 0;
    for run in cells {
        heard = heard_with(heard, run, id, prb);
    }
    heard
}

/// The elements of a mask that no cell of a symbol has at a PRB of the endpoint with an id.
pub(crate) fn silent_mask(cells: &[CellRun], id: u16, mask: u16, prb: u16) -> u16
    ensures { result ≡ silent_mask_by cells.now id mask prb }
{
    mask & !heard_mask(cells, id, prb) & ALL
}
