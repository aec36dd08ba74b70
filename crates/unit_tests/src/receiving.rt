// Fragments that are received for cells: what `take_message` requires holds after the calls before it.
ghost use Rattle.std.specs.Prelude.{◌≡◌, ◌<◌, List, [], ◌∷◌};
ghost use Rattle.bfp_codec.specs.Layout.{HasWidth};
ghost use Rattle.ecpri_fragments.specs.Assemblies.{endpoints_of as assembly_endpoints};
ghost use Rattle.unit_cells.specs.Cells.{endpoints_of};

use ecpri_fragments::{Assembly, Lease, SeqField, Taken};
use fault_counters::{Counter, Counters};
use fh_base::of_ns;
use unit_cells::UnitCells;
use unit_memory::take_message;
use window_config::EndpointConfig;

/// Treats a message whose fragments were received at times that a unit may be given.
fn treat(cells: &mut UnitCells, counters: &mut Counters, e: &EndpointConfig, lease: &Lease<'_>)
    requires listed { endpoints_of cells.old ≡ e.now ∷ [] }
    requires width { HasWidth e.now.format.method }
    ensures { endpoints_of cells.new ≡ endpoints_of cells.old }
{
    let first = lease.first();
    let last = lease.last();
    if 0 <= first.0 && first.0 <= last.0 && last.0 <= 1 << 53 {
        take_message(cells, counters, 0, e, lease);
    }
}

/// Takes a fragment that is received so many nanoseconds after 9 ms, and treats the message that it makes complete.
pub(crate) fn receive(
    assembly: &mut Assembly,
    cells: &mut UnitCells,
    counters: &mut Counters,
    e: &EndpointConfig,
    ns: u32,
    seq: SeqField,
    bytes: &[u8],
)
    requires endpoint { 0 < assembly_endpoints assembly.old }
    requires sub { seq.sub < 128 }
    requires listed { endpoints_of cells.old ≡ e.now ∷ [] }
    requires width { HasWidth e.now.format.method }
    ensures assembly { assembly_endpoints assembly.new ≡ assembly_endpoints assembly.old }
    ensures cells { endpoints_of cells.new ≡ endpoints_of cells.old }
{
    if let Taken::Whole(lease) = assembly.take(0, of_ns(9_000_000 + i64::from(ns)), seq, bytes) {
        treat(cells, counters, e, &lease);
    }
}

pub(crate) fn field(seq: u8, last: bool, sub: u8) -> SeqField
    ensures { result ≡ record { seq = seq; last = last; sub = sub } }
{
    SeqField { seq, last, sub }
}

/// How many sections were taken, repeats, early or late, how many messages were refused, and how many had the wrong direction.
pub(crate) fn counted(counters: &Counters) -> [u64; 6] {
    [
        counters.get(Counter::UTaken),
        counters.get(Counter::URepeat),
        counters.get(Counter::UEarly),
        counters.get(Counter::ULate),
        counters.get(Counter::URefused),
        counters.get(Counter::WrongWay),
    ]
}
