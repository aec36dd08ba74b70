// Why a cell is missing or silent.
ghost use Rattle.std.specs.Prelude.{◌≡◌, ◌≤◌, length};
ghost use Rattle.pictures.specs.Classes.{class_name, command_class, data_class, missing_class, silent_class};

/// A class of cells, which have one colour.
#[derive(Clone, Copy, Debug, PartialEq, Eq)]
pub enum Class {
    /// Data was received late, or its command.
    Late,
    /// Data was received early, or its command.
    Early,
    /// A fragment is missing.
    Unfinished,
    /// Data of another section id was received.
    Other,
    /// Data were refused, or went the wrong way.
    Refused,
    /// Data was received under a sequence id that was used before.
    Repeated,
    /// A command was not accepted.
    Command,
    /// Nothing was received.
    NoData,
}

impl Class {
    /// The name of its class in a picture.
    pub fn name(self) -> &'static [u8]
        ensures name { result.now ≡ class_name self }
        ensures short { length result.now ≤ 16 }
    {
        match self {
            Class::Late => b"late",
            Class::Early => b"early",
            Class::Unfinished => b"unfinished",
            Class::Other => b"other",
            Class::Refused => b"refused",
            Class::Repeated => b"repeated",
            Class::Command => b"command",
            Class::NoData => b"nodata",
        }
    }
}

/// The class of a word that says what became of a command.
fn command_class(word: &[u8]) -> Option<Class>
    ensures { result ≡ command_class word.now }
{
    if word == b"command_late".as_slice() {
        return Some(Class::Late);
    }
    if word == b"command_early".as_slice() {
        return Some(Class::Early);
    }
    if word == b"command_mismatch".as_slice()
        || word == b"command_range".as_slice()
        || word == b"command_repeat".as_slice()
        || word == b"command_overlap".as_slice()
        || word == b"command_full".as_slice()
    {
        return Some(Class::Command);
    }
    None
}

/// The class of a word that says what became of data.
fn data_class(word: &[u8]) -> Option<Class>
    ensures { result ≡ data_class word.now }
{
    if word == b"late".as_slice() {
        return Some(Class::Late);
    }
    if word == b"early".as_slice() {
        return Some(Class::Early);
    }
    if word == b"unfinished".as_slice() {
        return Some(Class::Unfinished);
    }
    if word == b"other".as_slice() {
        return Some(Class::Other);
    }
    if word == b"refused".as_slice() || word == b"wrong_way".as_slice() {
        return Some(Class::Refused);
    }
    if word == b"repeated".as_slice() {
        return Some(Class::Repeated);
    }
    if word == b"nodata".as_slice() {
        return Some(Class::NoData);
    }
    None
}

/// The class of the reason of a silent cell.
pub(crate) fn silent_class(word: &[u8]) -> Option<Class>
    ensures { result ≡ silent_class word.now }
{
    if word == b"nocommand".as_slice() {
        return Some(Class::NoData);
    }
    command_class(word)
}

/// The class of the reason of a missing cell.
pub(crate) fn missing_class(word: &[u8]) -> Option<Class>
    ensures { result ≡ missing_class word.now }
{
    match silent_class(word) {
        Some(class) => Some(class),
        None => data_class(word),
    }
}
