// The runs of cells that were told.
ghost use Rattle.std.specs.Prelude.{◌≡◌, [], ◌∷◌, ◌++◌, OnOk, IfOk};
ghost use Rattle.std.specs.List.{AllByRecursion};
ghost use Rattle.explain_records.specs.Missing.{IsCellRun};
ghost use Rattle.explain_model.specs.Keys.{run_key};
ghost use Rattle.explain_model.specs.declared.keys.SymbolKey.{SymbolKey as SpecKey};
ghost use Rattle.explain_records.specs.Keys.{of_symbol};

use explain_model::CellRun;
use explain_records::{OrderedRecords, SymbolRecords};
use fh_base::NoMemory;
use std::alloc::Global;
use std::marker::Model;

/// Runs of cells, in the order in which they were told. Contracts see them as the list of them.
#[derive(Drop)]
pub(crate) struct CellRuns {
    all: SymbolRecords<CellRun>,
}

impl Model for CellRuns {
    ghost use Rattle.std.specs.Prelude.{List};
    ghost use Rattle.std.specs.List.{AllByRecursion};
    ghost use Rattle.explain_records.specs.Missing.{IsCellRun};
    ghost use Rattle.explain_model.specs.declared.runs.CellRun.{CellRun};

    ghost Value = { List CellRun };

    ghost view = { λ c. c.all };

    ghost invariant = { λ c. AllByRecursion IsCellRun c.all };
}

impl CellRuns {
    /// No runs.
    pub(crate) fn new(alloc: Global) -> CellRuns
        ensures { result ≡ [] }
    {
        CellRuns {
            all: SymbolRecords::new(alloc),
        }
    }

    /// Appends a run. After `NoMemory` the runs are as before.
    #[tactic(auto, using(crate::proofs::FitLemmas::fits_more))]
    pub(crate) fn push(&mut self, run: CellRun) -> Result<(), NoMemory>
        requires { IsCellRun run }
        ensures { OnOk result (self.new ≡ self.old ++ run ∷ []) }
    {
        self.all.push(run)
    }

    /// All runs, in their order.
    pub(crate) fn as_slice(&self) -> &[CellRun]
        ensures runs { result.now ≡ self.now }
        ensures fit { AllByRecursion IsCellRun result.now }
    {
        self.all.as_slice()
    }

    /// The runs in the order of their symbols; those of one symbol stay in their order.
    pub(crate) fn order(self) -> Result<OrderedRecords<CellRun>, NoMemory>
        ensures { IfOk result (λ sorted. (key : SpecKey) → of_symbol run_key key sorted ≡ of_symbol run_key key self) }
    {
        self.all.order()
    }
}
