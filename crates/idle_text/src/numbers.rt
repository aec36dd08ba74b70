// Symbols by their numbers in an endpoint's table.
ghost use Rattle.std.specs.Prelude.{◌≡◌, ℕ, ◌<◌, List, length};
ghost use Rattle.air_source.specs.declared.events.AirCell.{AirCell};
ghost use Rattle.idle_spans.specs.Symbols.{symbol_at};
ghost use Rattle.idle_spans.specs.Tables.{endpoints_of, symbols_in};
ghost use Rattle.idle_text.specs.Tables.{IsTableOf};

use idle_spans::{Place, Spans};
use window_config::EndpointConfig;

/// The number of a symbol of the frames.
pub fn number_of(spans: &Spans, ep: usize, e: &EndpointConfig, place: Place) -> usize
    requires { ep < length (endpoints_of spans.now) }
    ensures { (first last : ℕ) (cells : List AirCell) → IsTableOf spans.now ep e.now first last cells → (k : ℕ) → k < symbols_in spans.now ep → place ≡ symbol_at e.now.numerology first k → result ≡ k }
{
    match spans.number(ep, place) {
        Some(k) => k,
        None => 0,
    }
}
