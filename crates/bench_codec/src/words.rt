// The words of a call, and how it ends.

/// The first word of a call: what is measured.
#[derive(Clone, Copy)]
pub enum Word {
    Bfp,
    Frames,
    Lines,
    Document,
    Show,
    All,
}

impl Word {
    /// The word that a text is.
    pub fn of(text: &str) -> Option<Word> {
        match text {
            "bfp" => Some(Word::Bfp),
            "frames" => Some(Word::Frames),
            "lines" => Some(Word::Lines),
            "document" => Some(Word::Document),
            "show" => Some(Word::Show),
            "all" => Some(Word::All),
            _ => None,
        }
    }
}

/// How a call ended.
#[derive(Clone, Copy)]
pub enum Ending {
    Done,
    /// The words are no call. Nothing was read, and nothing written on standard output.
    BadWords,
}
