// A law of the judgements.
ghost use Rattle.explain_laws.specs.JudgedCounted.{JudgementsAreCounted};

/// What a frame adds to the counters of a unit is one for the frame, one for its refusal, if it has one, and what each of its
/// judgements is counted as.
pub fn judgements_are_counted()
    ensures { JudgementsAreCounted }
{}
