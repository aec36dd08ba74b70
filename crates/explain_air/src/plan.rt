// The lines of a plan, with their numbers in the document.
ghost use Rattle.std.specs.Prelude.{◌≡◌, ◌<◌, length};
ghost use Rattle.std.specs.List.{AllByRecursion};
ghost use Rattle.why_lines.specs.Silent.{IsSilentLine};

use plan_model::PlannedLine;
use std::marker::Model;

/// The lines of a plan at their endpoints, with their numbers in the document. Contracts see them as both lists.
#[derive(Drop)]
pub struct PlanLines {
    planned: Vec<PlannedLine>,
    numbers: Vec<u64>,
}

impl Model for PlanLines {
    ghost use Rattle.explain_air.specs.Plans.{AreNumbered, NumberedLines};

    ghost Value = { NumberedLines };

    ghost view = { λ p. record { planned = p.planned.items; numbers = p.numbers.items } };

    ghost invariant = { λ p. AreNumbered p.planned.items p.numbers.items };
}

impl PlanLines {
    /// These lines; each one's place in the plan has its number.
    pub fn of(planned: Vec<PlannedLine>, numbers: Vec<u64>) -> PlanLines
        requires lines { AllByRecursion IsSilentLine planned.items }
        requires numbered { AllByRecursion (λ p. p.index < length numbers.items) planned.items }
        ensures lines { result.planned ≡ planned.items }
        ensures numbers { result.numbers ≡ numbers.items }
    {
        PlanLines { planned, numbers }
    }

    /// The lines, in the plan's order.
    pub(crate) fn planned(&self) -> &[PlannedLine]
        ensures all { result.now ≡ self.now.planned }
        ensures lines { AllByRecursion IsSilentLine result.now }
        ensures numbered { AllByRecursion (λ p. p.index < length self.now.numbers) result.now }
    {
        self.planned.as_slice()
    }

    /// The numbers of all lines of the plan.
    pub(crate) fn numbers(&self) -> &[u64]
        ensures { result.now ≡ self.now.numbers }
    {
        self.numbers.as_slice()
    }
}
