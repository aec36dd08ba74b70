// Runs as text.
ghost use Rattle.std.specs.Prelude.{◌≡◌, IfOk};
ghost use Rattle.std.specs.String.{string_bytes};
ghost use Rattle.hex.specs.Hex.{encode_lower};
ghost use Rattle.sha2.specs.Sha256.{sha256};

use crate::running::Ran;
use sha2::{Digest, Sha256};
use std::alloc::{AllocError, Global};

/// How many bytes are in a row of digits.
const ROW: usize = 32;

/// A run's entry, its status, and what it wrote to both ends.
pub fn ran_text(alloc: Global, entry: &str, ran: &Ran) -> Result<String, AllocError> {
    let mut text = format!(in alloc; "{entry}\nstatus {}", ran.status)?;
    push_written(alloc, &mut text, "out", ran.out.bytes())?;
    push_written(alloc, &mut text, "err", ran.err.bytes())?;
    Ok(text)
}

/// A run's entry, its status, and of what it wrote to each end the number of bytes and their digest.
pub fn digest_text(alloc: Global, entry: &str, ran: &Ran) -> Result<String, AllocError> {
    let mut text = format!(in alloc; "{entry}\nstatus {}", ran.status)?;
    push_digest(alloc, &mut text, "out", ran.out.bytes())?;
    push_digest(alloc, &mut text, "err", ran.err.bytes())?;
    Ok(text)
}

/// The number of bytes that were written to an end, and their digest.
fn push_digest(
    alloc: Global,
    text: &mut String,
    end: &str,
    written: &[u8],
) -> Result<(), AllocError> {
    if written.is_empty() {
        return Ok(());
    }
    let digest = digest_of(alloc, written)?;
    text.push_str(format!(in alloc; "\n{end}-bytes {}", written.len())?.as_str())?;
    text.push_str(format!(in alloc; "\n{end}-sha256 {digest}")?.as_str())
}

/// The SHA-256 of bytes, as hexadecimal digits.
fn digest_of(alloc: Global, bytes: &[u8]) -> Result<String, AllocError>
    ensures { IfOk result (λ text. string_bytes text ≡ encode_lower (sha256 bytes.now)) }
{
    hex::encode(alloc, Sha256::digest(bytes))
}

/// What was written to an end: line by line where it is lines of text, and else in rows.
fn push_written(
    alloc: Global,
    text: &mut String,
    end: &str,
    written: &[u8],
) -> Result<(), AllocError> {
    if written.is_empty() {
        return Ok(());
    }
    match str::from_utf8(written) {
        Ok(lines) if is_lines(written) => push_lines(alloc, text, end, lines),
        _ => push_rows(alloc, text, end, written),
    }
}

/// Whether bytes are lines of printable ASCII, of which the last ends.
fn is_lines(bytes: &[u8]) -> bool {
    let are_printed = bytes
        .iter()
        .all(|b| *b == b'\n' || (b' ' <= *b && *b <= b'~'));
    are_printed && bytes.last() == Some(&b'\n')
}

fn push_lines(alloc: Global, text: &mut String, end: &str, lines: &str) -> Result<(), AllocError> {
    for line in lines.lines() {
        text.push_str(format!(in alloc; "\n{end} {line}")?.as_str())?;
    }
    Ok(())
}

/// The number of the bytes, and their digits in rows of 32 bytes; rows that are as the one before them are one `*`.
fn push_rows(alloc: Global, text: &mut String, end: &str, bytes: &[u8]) -> Result<(), AllocError> {
    text.push_str(format!(in alloc; "\n{end}-bytes {}", bytes.len())?.as_str())?;
    let mut before: &[u8] = b"";
    let mut is_starred = false;
    for row in bytes.chunks(ROW) {
        if row != before {
            let digits = hex::encode(alloc, row)?;
            text.push_str(format!(in alloc; "\n{end}-hex {digits}")?.as_str())?;
            is_starred = false;
        } else if !is_starred {
            text.push_str(format!(in alloc; "\n{end}-hex *")?.as_str())?;
            is_starred = true;
        }
        before = row;
    }
    Ok(())
}
