// The words of a call, and how it ends.

/// The first word of a call: what is measured.
#[derive(Clone, Copy)]
pub enum Word {
    Radio,
    Intake,
    Cells,
    Uplink,
    All,
}

impl Word {
    /// The word that a text is.
    pub fn of(text: &str) -> Option<Word> {
        match text {
            "radio" => Some(Word::Radio),
            "intake" => Some(Word::Intake),
            "cells" => Some(Word::Cells),
            "uplink" => Some(Word::Uplink),
            "all" => Some(Word::All),
            _ => None,
        }
    }
}

/// How a call ended.
#[derive(Clone, Copy)]
pub enum Ending {
    Done,
    /// The words are no call. Nothing was read, and nothing written on standard output.
    BadWords,
}
