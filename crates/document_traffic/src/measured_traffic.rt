// Laws as contracts of functions that do nothing.
ghost use Rattle.document_traffic.specs.Ends.{DocumentsAreOver};
ghost use Rattle.document_traffic.specs.Exchanged.{DelaysAreTold};
ghost use Rattle.document_traffic.specs.MeasuredLaws.{LandingsAreReplayed, MeasurementRests, MessagesAreOwed};

/// Delay measurement changes nothing of what either unit decodes and reports in a document's replay, and nothing of the uplink messages.
pub fn measurement_rests()
    ensures units { MeasurementRests }
    ensures messages { MessagesAreOwed }
{}

/// All that lands at either unit for a document with a valid plan has its time between the first clock and 1,099 s.
pub fn landings_are_replayed()
    ensures { LandingsAreReplayed }
{}

/// Once all up to the end of time is reported and given for such a document, no cell is due at either unit, and no message, up to any time.
pub fn documents_are_over()
    ensures { DocumentsAreOver }
{}

/// The events of delays of a document's replay are the delays that became known to both units by what they were told and sent, in that
/// order, and each unit's four counters of delay measurement count what it was told so, and the messages that are too short.
pub fn delays_are_told()
    ensures { DelaysAreTold }
{}
