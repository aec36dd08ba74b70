// The words of a call, and how it ends.

/// The first word of a call: what is measured.
#[derive(Clone, Copy, Debug, PartialEq, Eq)]
pub enum Word {
    Plan,
    Schedule,
    All,
}

impl Word {
    /// The word that a text is.
    pub fn of(text: &str) -> Option<Word> {
        match text {
            "plan" => Some(Word::Plan),
            "schedule" => Some(Word::Schedule),
            "all" => Some(Word::All),
            _ => None,
        }
    }
}

/// How a call ended.
#[derive(Clone, Copy, Debug, PartialEq, Eq)]
pub enum Ending {
    Done,
    /// The words are no call. Nothing was written on standard output.
    BadWords,
}
