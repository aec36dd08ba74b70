// The plan of a document that is replayed.
ghost use Rattle.du_scheduler.specs.Plans.{Checks};
ghost use Rattle.fh_document.specs.Proper.{IsDocument};

use du_scheduler::{Plan, PlanRefusal};
use fh_document::Document;
use std::alloc::Global;

/// Tests the plan of a document, and takes all memory for its frames: what a replay of the document sends.
///
/// # Errors
///
/// `PlanRefusal::At` names the first line that is refused, by its place in the plan, from 0, with the first reason for it;
/// `NoMemory` where memory cannot be had.
pub fn check_plan(alloc: Global, document: &Document) -> Result<Plan, PlanRefusal>
    requires { IsDocument document.now }
    ensures { Checks document.now.config document.now.plan result }
{
    Plan::check(alloc, &document.config, &document.plan)
}
