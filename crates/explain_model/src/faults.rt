// Which lines the text of the faults has.
ghost use Rattle.std.specs.Prelude.{◌≡◌};
ghost use Rattle.explain_model.specs.Faults.{is_answer_fault, is_command_fault, is_data_fault, is_fragment_fault, is_fault};

use crate::values::{CommandAnswer, ExplainLine};
use ecpri_fragments::Verdict;
use unit_model::{CommandVerdict, DataVerdict};

fn is_answer_fault(answer: CommandAnswer) -> bool
    ensures { result ≡ is_answer_fault answer }
{
    !matches!(answer, CommandAnswer::Read)
}

fn is_command_fault(verdict: CommandVerdict) -> bool
    ensures { result ≡ is_command_fault verdict }
{
    !matches!(verdict, CommandVerdict::Accepted)
}

fn is_data_fault(verdict: DataVerdict) -> bool
    ensures { result ≡ is_data_fault verdict }
{
    !matches!(verdict, DataVerdict::Taken)
}

fn is_fragment_fault(verdict: Verdict) -> bool
    ensures { result ≡ is_fragment_fault verdict }
{
    !matches!(verdict, Verdict::Stored | Verdict::Whole)
}

/// Whether a line is in the text of the faults: all are but those that tell what went well.
#[tactic(auto, unfolding(crate::specs::Faults::is_fault))]
pub fn is_fault(line: &ExplainLine) -> bool
    ensures { result ≡ is_fault line.now }
{
    match *line {
        ExplainLine::Window { .. }
        | ExplainLine::Endpoint(_)
        | ExplainLine::Measure { .. }
        | ExplainLine::Cells { .. }
        | ExplainLine::Delay { .. } => false,
        ExplainLine::Frame { refusal, .. } => refusal.is_some(),
        ExplainLine::Command { answer, .. } => is_answer_fault(answer),
        ExplainLine::Control(c) => is_command_fault(c.verdict),
        ExplainLine::Fragment { verdict, .. } => is_fragment_fault(verdict),
        ExplainLine::Data(d) => is_data_fault(d.verdict),
        ExplainLine::Head { .. }
        | ExplainLine::Other { .. }
        | ExplainLine::Short { .. }
        | ExplainLine::Unknown { .. }
        | ExplainLine::Whole(_)
        | ExplainLine::WhyMissing { .. }
        | ExplainLine::WhySilent { .. }
        | ExplainLine::Unused { .. }
        | ExplainLine::Margin { .. }
        | ExplainLine::ShownCells { .. }
        | ExplainLine::MissingCells { .. }
        | ExplainLine::SilentPrbs { .. }
        | ExplainLine::Count { .. }
        | ExplainLine::End => true,
    }
}
