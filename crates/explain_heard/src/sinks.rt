// What takes lines.
ghost use Rattle.std.specs.Prelude.{List, [], ◌∷◌, ◌++◌, ℕ, OnOk, IfErr};
ghost use Rattle.air_source.specs.Causes.{HasAirCause};
ghost use Rattle.air_source.specs.declared.airs.AirFault.{AirFault};
ghost use Rattle.explain_model.specs.declared.values.ExplainLine.{ExplainLine as SpecLine};

use air_source::AirFault;
use explain_model::ExplainLine;

/// What takes the lines of an explanation, one at a call.
///
/// At `Ok` it took the line; after an error it stopped in it. The count of faults rises exactly at `Failed`. Code over any sink knows
/// what it took by these ghost members and their laws alone.
pub trait LineSink {
    /// How often it failed, a number that does not fall and may stay at the greatest `u64`.
    ghost faults: { Self → ℕ };

    /// From the first sink to the second, it took these lines, in order.
    ghost grew: { Self → List SpecLine → Self → Type 0 };

    /// From the first sink to the second, it stopped in this line.
    ghost stopped: { AirFault → Self → SpecLine → Self → Type 0 };

    /// The second sink holds the same references as the first.
    ghost same: { Self → Self → Type 0 };

    /// Takes a line.
    fn put(&mut self, line: &ExplainLine) -> Result<(), AirFault>
        ensures heard { OnOk result (grew self.old (line.now ∷ []) self.new) }
        ensures stop { IfErr result (λ f. stopped f self.old line.now self.new) }
        ensures same { same self.old self.new }
        ensures cause { HasAirCause (faults self.old) (faults self.new) result };

    /// An unchanged sink took nothing.
    ghost grew_none: { (a : Self) → grew a [] a };

    /// Taking one list and then another is taking both in turn.
    ghost grew_more: { (a b c : Self) (first second : List SpecLine) → grew a first b → grew b second c → grew a (first ++ second) c };

    /// An unchanged sink holds the same references.
    ghost same_none: { (a : Self) → same a a };

    /// The same references, and then the same again, are the same.
    ghost same_more: { (a b c : Self) → same a b → same b c → same a c };
}
