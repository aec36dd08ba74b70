// The lines of the table.

/// What a line of the table asks for.
#[derive(Clone, Copy)]
pub enum Entry<'a> {
    /// An empty line, or one that begins with `#`.
    Remark,
    /// Bytes of the input.
    Piece(Piece<'a>),
    /// `last`: what the last run wrote, as bytes of the input.
    Last,
    /// `empty`: an input of no bytes.
    Empty,
    /// A run over the input.
    Call(Call<'a>),
}

/// A run over the input: of what, and with which words.
#[derive(Clone, Copy)]
pub struct Call<'a> {
    pub kind: Kind,
    pub words: &'a str,
}

/// What is run, and how what it wrote is shown.
#[derive(Clone, Copy)]
pub enum Kind {
    /// `run WORDS`: `fronthaul`, shown whole.
    Run,
    /// `digest WORDS`: `fronthaul`, shown by sizes and digests.
    Digest,
    /// `export WORDS`: `capture_pcap`, shown whole.
    Export,
}

/// Bytes of the input, so many times.
#[derive(Clone, Copy)]
pub struct Piece<'a> {
    pub times: u32,
    pub form: Form,
    pub text: &'a str,
}

/// How a piece is spelled.
#[derive(Clone, Copy)]
pub enum Form {
    /// `in TEXT`: a line.
    Line,
    /// `put TEXT`: a text that does not end its line.
    Text,
    /// `hex DIGITS`: two digits for each byte.
    Digits,
}

/// The first word of a line, and what follows the blank after it.
fn parted(line: &str) -> (&str, &str) {
    line.split_once(' ').unwrap_or((line, ""))
}

/// The entry of a line. None where it is none.
pub fn read_entry(line: &str) -> Option<Entry<'_>> {
    if line.is_empty() || line.starts_with('#') {
        return Some(Entry::Remark);
    }
    let (keyword, rest) = parted(line);
    match keyword {
        "run" => Some(call_entry(Kind::Run, rest)),
        "digest" => Some(call_entry(Kind::Digest, rest)),
        "export" => Some(call_entry(Kind::Export, rest)),
        "last" => Some(Entry::Last),
        "empty" => Some(Entry::Empty),
        "times" => {
            let (times, piece) = parted(rest);
            Some(Entry::Piece(read_piece(times.parse::<u32>().ok()?, piece)?))
        }
        _ => Some(Entry::Piece(read_piece(1, line)?)),
    }
}

fn call_entry(kind: Kind, words: &str) -> Entry<'_> {
    Entry::Call(Call { kind, words })
}

fn read_piece(times: u32, line: &str) -> Option<Piece<'_>> {
    let (keyword, text) = parted(line);
    let form = match keyword {
        "in" => Form::Line,
        "put" => Form::Text,
        "hex" => Form::Digits,
        _ => return None,
    };
    Some(Piece { times, form, text })
}
