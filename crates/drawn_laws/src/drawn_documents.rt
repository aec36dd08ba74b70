// Laws as contracts of functions that do nothing.
ghost use Rattle.drawn_laws.specs.Documents.{WrittenAreDrawn};

/// What `explain` writes of a document that was read has the picture of any subframes and that of the windows. No premise is left: its
/// answer Ok says that few frames arrive.
pub fn written_are_drawn()
    ensures { WrittenAreDrawn }
{}
