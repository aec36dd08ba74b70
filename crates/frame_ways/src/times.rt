// Times in their order.
ghost use Rattle.std.specs.Prelude.{◌≡◌};
ghost use Rattle.fh_base.specs.Least.{earlier_time};

use fh_base::Ticks;

/// The earlier of two times, where there are any.
pub fn earlier_of(a: Option<Ticks>, b: Option<Ticks>) -> Option<Ticks>
    ensures { result ≡ earlier_time a b }
{
    match (a, b) {
        (None, _) => b,
        (_, None) => a,
        (Some(x), Some(y)) => Some(if y.0 < x.0 { y } else { x }),
    }
}
