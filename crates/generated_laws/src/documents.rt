// A generated document is read, and its plan is valid, whatever its seed and its number of slots.
ghost use Rattle.generated_laws.specs.Documents.{GeneratedAreRead, GeneratedAreValid};

/// What is generated is read as the document that it is generated to say.
pub fn generated_are_read()
    ensures { GeneratedAreRead }
{}

/// Its plan is valid.
pub fn generated_are_valid()
    ensures { GeneratedAreValid }
{}
