// What runs are made of.
ghost use Rattle.std.specs.Prelude.{◌≡◌, ◌+◌, ℕ, Bool, true};
ghost use Rattle.explain_model.specs.declared.values.ExplainLine.{ExplainLine as SpecLine};

use explain_model::ExplainLine;

/// An item of a run: what is said of one PRB.
pub trait RunItem: Copy {
    /// The second goes on with a run of which the first is the last.
    ghost related: { Self → Self → Bool };

    /// Its PRB.
    ghost place: { Self → ℕ };

    /// The line of a run of so many items of which it is the first.
    ghost run_line: { Self → ℕ → SpecLine };

    /// Whether an item goes on with a run of which this is the last.
    fn leads_to(&self, next: &Self) -> bool
        ensures { result ≡ related self.now next.now };

    /// The line of a run of so many items of which this is the first.
    fn line(&self, num: u16) -> ExplainLine
        ensures { result ≡ run_line self.now num };

    /// The PRBs of a run follow one another.
    ghost steps: { (a b : Self) → related a b ≡ true → place b ≡ place a + 1 };
}
