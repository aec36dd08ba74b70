// Laws as contracts of functions that do nothing.
ghost use Rattle.document_traffic.specs.Plain.{GeneratedAreUndisturbed, PlainAreUndisturbed};

/// Where the windows pass the check, nothing is injected, and the `transit` and `deliver` lines bring each frame within the transport of
/// its way, nothing disturbs a document's schedule, either way.
pub fn plain_are_undisturbed()
    ensures { PlainAreUndisturbed }
{}

/// Nothing disturbs the schedule of a generated document.
pub fn generated_are_undisturbed()
    ensures { GeneratedAreUndisturbed }
{}
