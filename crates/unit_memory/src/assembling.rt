// A fragment, and the message that it makes whole.
ghost use Rattle.std.specs.Prelude.{◌≡◌, ℕ, ◌+◌, ◌<◌, ◌++◌, List};
ghost use Rattle.air_source.specs.declared.events.Side.{Side as SpecSide};
ghost use Rattle.bfp_codec.specs.Layout.{HasWidth};
ghost use Rattle.ecpri_fragments.specs.Assemblies.{StandsFor, Took, endpoints_of as places_of, hold_of};
ghost use Rattle.ecpri_fragments.specs.Generations.{Fragment, fragment};
ghost use Rattle.ecpri_fragments.specs.Verdicts.{verdict_on};
ghost use Rattle.fault_counters.specs.declared.kinds.Counter.{Counter as SpecCounter};
ghost use Rattle.fault_counters.specs.Counts.{times};
ghost use Rattle.window_config.specs.declared.config.Config.{Config};
ghost use Rattle.unit_model.specs.Counts.{decoded_counted};
ghost use Rattle.unit_model.specs.Decoding.{data_now, data_told};
ghost use Rattle.unit_model.specs.Proper.{IsAt, IsTime};
ghost use Rattle.unit_model.specs.declared.allocations.Allocation.{Allocation};
ghost use Rattle.unit_model.specs.declared.decoded.UserSection.{UserSection};
ghost use Rattle.unit_cells.specs.Cells.{endpoints_of};
ghost use Rattle.unit_memory.specs.Holding.{HoldsData};
ghost use Rattle.unit_model.specs.Judgements.{judged_piece};
ghost use Rattle.unit_memory.specs.Parts.{CameSome, LeavesReported};

use crate::taking::take_message_told;
use ecpri_fragments::{Assembly, SeqField, Taken, Verdict};
use fault_counters::Counters;
use fh_base::Ticks;
use unit_cells::UnitCells;
use unit_model::Listener;
use window_config::EndpointConfig;

/// A fragment that is received for an endpoint.
#[derive(Clone, Copy)]
pub(crate) struct ReceivedFragment<'a> {
    /// When it is received.
    pub at: Ticks,
    /// The endpoint's index.
    pub ep: usize,
    pub endpoint: &'a EndpointConfig,
    pub seq: SeqField,
    /// What it has of its message.
    pub bytes: &'a [u8],
}

/// Takes a fragment to its endpoint, and treats the message that it makes whole, if it does.
pub(crate) fn assemble<L: Listener>(
    assembly: &mut Assembly,
    cells: &mut UnitCells,
    counters: &mut Counters,
    listener: &mut L,
    received: &ReceivedFragment<'_>,
) -> Verdict
    requires fragments { CameSome received.now.at.0 assembly.old }
    requires place { received.now.ep < places_of assembly.old }
    requires endpoint { IsAt (endpoints_of cells.old) received.now.ep received.now.endpoint.now }
    requires width { HasWidth received.now.endpoint.now.format.method }
    requires time { IsTime received.now.at.0 }
    requires sub { received.now.seq.sub < 128 }
    ensures took { Took assembly.old assembly.new (fragment received.now.ep received.now.at received.now.seq received.now.bytes.now) }
    ensures verdict { (fs : List Fragment) → StandsFor assembly.old fs → result ≡ verdict_on (hold_of assembly.old) (fragment received.now.ep received.now.at received.now.seq received.now.bytes.now) fs }
    ensures holds { (side : SpecSide) (c : Config) (n : SpecCounter → ℕ) (acc : List Allocation) (fs : List Fragment) (ds : List UserSection)
        → StandsFor assembly.old fs → HoldsData side c received.now.at.0 n acc ds cells.old counters.old
        → let told = data_now side (hold_of assembly.old) received.now.endpoint.now (fragment received.now.ep received.now.at received.now.seq received.now.bytes.now) fs in
        HoldsData side c received.now.at.0 (λ k. n k + times (decoded_counted told) k) acc (data_told told ++ ds) cells.new counters.new }
    ensures told { (side : SpecSide) (c : Config) (n : SpecCounter → ℕ) (acc : List Allocation) (fs : List Fragment) (ds : List UserSection)
        → StandsFor assembly.old fs → HoldsData side c received.now.at.0 n acc ds cells.old counters.old
        → L.heard listener.old (judged_piece side c.delays (hold_of assembly.old) received.now.endpoint.now (fragment received.now.ep received.now.at received.now.seq received.now.bytes.now) fs ds) listener.new }
    ensures reports { LeavesReported received.now.at.0 cells.old cells.new }
{
    let ReceivedFragment {
        at,
        ep,
        endpoint,
        seq,
        bytes,
    } = *received;
    match assembly.take(ep, at, seq, bytes) {
        Taken::Stored => {
            listener.fragment(at, ep, endpoint, seq, bytes, Verdict::Stored);
            Verdict::Stored
        }
        Taken::Whole(lease) => {
            listener.fragment(at, ep, endpoint, seq, bytes, Verdict::Whole);
            take_message_told(cells, counters, listener, ep, endpoint, &lease);
            Verdict::Whole
        }
        Taken::Repeat => {
            listener.fragment(at, ep, endpoint, seq, bytes, Verdict::Repeat);
            Verdict::Repeat
        }
        Taken::Stray => {
            listener.fragment(at, ep, endpoint, seq, bytes, Verdict::Stray);
            Verdict::Stray
        }
        Taken::TooLong => {
            listener.fragment(at, ep, endpoint, seq, bytes, Verdict::TooLong);
            Verdict::TooLong
        }
    }
}
