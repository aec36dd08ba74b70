// What the tests build: an endpoint of 4 PRBs, its configuration, the sections of commands, and a look at a cell.
ghost use Rattle.std.specs.Prelude.{◌≡◌, ◌<◌, ◌≤◌, List, [], ◌∷◌};
ghost use Rattle.bfp_codec.specs.Layout.{HasWidth};
ghost use Rattle.fh_base.specs.Numbering.{slots_of, symbols_of};
ghost use Rattle.window_config.specs.Configs.{IsConfig};
ghost use Rattle.window_config.specs.Endpoints.{IsEndpoint};
ghost use Rattle.unit_cells.specs.Cells.{endpoints_of};

use bfp_codec::{Format, Method};
use cplane_sections::{CBody, CHead, CSection};
use eaxc_map::Widths;
use fh_base::{Numerology, Slot, Ticks};
use unit_cells::UnitCells;
use unit_model::{Block, CommandVerdict, ControlSection};
use window_config::{Config, Delays, EndpointConfig, EndpointList};

/// The first slot of frame 1, which begins at 10 ms.
pub(crate) const SLOT: Slot = Slot {
    frame: 1,
    subframe: 0,
    slot: 0,
};

pub(crate) fn endpoint(numerology: Numerology, method: Method) -> EndpointConfig
    requires { HasWidth method }
    ensures endpoint { IsEndpoint result }
    ensures numerology { result.numerology ≡ numerology }
    ensures width { HasWidth result.format.method }
{
    EndpointConfig {
        id: 0,
        numerology,
        prbs: 4,
        format: Format {
            dynamic: false,
            method,
        },
    }
}

fn listed(e: EndpointConfig) -> EndpointList
    ensures { result ≡ e ∷ [] }
{
    let mut endpoints = EndpointList::new();
    let _room = endpoints.push(e);
    endpoints
}

/// A configuration of one endpoint.
pub(crate) fn config(e: EndpointConfig, widths: Widths) -> Config
    requires { IsEndpoint e }
    ensures config { IsConfig result }
    ensures endpoints { result.endpoints ≡ e ∷ [] }
{
    Config {
        widths,
        delays: Delays::usual(),
        gap: 1_000,
        fragment: 1_492,
        pack: 1,
        endpoints: listed(e),
    }
}

/// A section of a command for one PRB, from symbol 0 on.
pub(crate) fn section(id: u16, start_prb: u16, mask: u16, num_symbol: u8) -> CSection
    requires { start_prb < 1024 }
    ensures symbol { result.symbol ≡ 0 }
    ensures num_symbol { result.num_symbol ≡ num_symbol }
    ensures start_prb { result.start_prb < 1024 }
{
    CSection {
        id,
        sym_inc: false,
        symbol: 0,
        start_prb,
        num_prb: 1,
        mask,
        num_symbol,
        beam: 0,
        freq_offset: 0,
    }
}

/// Takes a section of a command for the slot, 400 us before it in the downlink and 250 us before it in the uplink.
pub(crate) fn accept(
    cells: &mut UnitCells,
    e: EndpointConfig,
    down: bool,
    section: CSection,
) -> bool
    requires listed { endpoints_of cells.old ≡ e ∷ [] }
    requires slots { 0 < slots_of e.numerology }
    requires symbols { symbols_of e.numerology ≡ 14 }
    requires symbol { section.symbol ≡ 0 }
    requires some { 0 < section.num_symbol }
    requires within { section.num_symbol ≤ 14 }
    requires start_prb { section.start_prb < 1024 }
    ensures { endpoints_of cells.new ≡ e ∷ [] }
{
    let command = ControlSection {
        ep: 0,
        endpoint: e,
        at: if down {
            Ticks(14_745_600_000)
        } else {
            Ticks(14_976_000_000)
        },
        head: CHead {
            down,
            filter: 0,
            frame_id: 1,
            subframe: 0,
            slot: 0,
            start_symbol: 0,
            count: 1,
            body: CBody::Normal { comp: 0 },
        },
        section,
    };
    cells.command(&command) == CommandVerdict::Accepted
}

/// The block of a downlink cell of the slot.
pub(crate) fn block_at(cells: &UnitCells, e: &EndpointConfig, symbol: u8, prb: u16) -> Option<Block>
    requires listed { endpoints_of cells.now ≡ e.now ∷ [] }
    requires slots { 0 < slots_of e.now.numerology }
{
    cells.ring(0).block(SLOT, symbol, prb).copied()
}

/// The section that claims a downlink cell of the slot, 0 where none does.
pub(crate) fn claim_at(cells: &UnitCells, e: &EndpointConfig, symbol: u8, prb: u16) -> u16
    requires listed { endpoints_of cells.now ≡ e.now ∷ [] }
    requires slots { 0 < slots_of e.now.numerology }
{
    cells.ring(0).symbol_cells(SLOT, symbol).cell(prb).section
}
