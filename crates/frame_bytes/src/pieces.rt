//! Frames with pieces of U-plane messages.
ghost use Rattle.std.specs.Prelude.{◌≡◌, ℕ, ◌+◌, ◌-◌, ◌*◌, ◌<◌, ◌≤◌, ◌^◌, List, ◌++◌, length, take, drop};
ghost use Rattle.bfp_codec.specs.declared.samples.Iq.{Iq as SpecIq};
ghost use Rattle.bfp_codec.specs.Layout.{HasWidth, length_of, packed_of};
ghost use Rattle.fh_base.specs.Carrier.{first_of, count_of};
ghost use Rattle.uplane_sections.specs.Section.{header_size};
ghost use Rattle.frame_bytes.specs.Spelled.{in_bytes};
ghost use Rattle.frame_bytes.specs.Transport.{IsOneMessage};
ghost use Rattle.frame_bytes.specs.Messages.{SectionFits, MessageFits, MayBeAsked, AnswersAt, AnswersBy, message_of, message_size, section_of, section_size, packed_prbs, section_fields};
ghost use Rattle.frame_bytes.specs.Cuts.{cut, piece_frame};
ghost use Rattle.frame_bytes.specs.Written.{Stands, bytes_of};

use crate::cuts::{write_at, write_cut};
use crate::messages::{Carrier, DataMessage, DataSection};
use crate::parts::Part;
use crate::transport::{TRANSPORT_LEN, transport};
use bfp_codec::{Format, Iq, Method, block_len, pack, pack_into};
use ecpri_fragments::SeqField;
use fh_base::PrbSpan;
use uplane_sections::{USection, put_head, put_section};

/// Bytes of a message: those from one place, from 0, up to another.
#[derive(Clone, Copy, Debug, PartialEq, Eq)]
pub struct Span {
    /// The first byte.
    pub from: usize,
    /// The byte after the last.
    pub to: usize,
}

/// The headers of a section.
fn section_headers(format: Format, section: &DataSection) -> Part
    requires width { HasWidth format.method }
    requires id { section.now.id < 2 ^ 12 }
    requires start_prb { section.now.start_prb < 2 ^ 10 }
    ensures size { result.len ≡ header_size format }
    ensures bytes { bytes_of result ≡ in_bytes (section_fields format section.now) }
{
    let mut bytes = [0; 12];
    let written = USection {
        id: section.id,
        sym_inc: false,
        symbol: 0,
        start_prb: section.start_prb,
        num_prb: section.num_prb,
        method: format.method,
    };
    let size = put_section(&written, format, &mut bytes);
    Part::new(bytes, size)
}

/// The first and the number of the PRBs of a section.
fn prbs_of(carrier: &Carrier, section: &DataSection) -> (u16, u16)
    requires fits { SectionFits carrier.now section.now }
    ensures first { result.0 ≡ first_of section.now.start_prb section.now.num_prb }
    ensures count { result.1 ≡ count_of carrier.now.prbs section.now.num_prb }
    ensures within { result.0 + result.1 ≤ carrier.now.prbs }
{
    let span = PrbSpan::named(section.start_prb, section.num_prb, carrier.prbs);
    (span.first, span.count)
}

/// Which of `count` blocks of `size` bytes each, from a place on, a span touches: those from the
/// first number up to the second.
fn touched(span: Span, place: usize, size: usize, count: usize) -> (usize, usize)
    requires order { span.from ≤ span.to }
    requires some { 0 < size }
    requires fits { place + count * size ≤ 2 ^ 32 }
    ensures order { result.0 ≤ result.1 }
    ensures within { result.1 ≤ count }
    ensures before { 0 < result.0 → place + result.0 * size ≤ span.from }
    ensures behind { result.1 < count → span.to ≤ place + result.1 * size }
{
    let first = (span.from.saturating_sub(place) / size).min(count);
    let end = span.to.saturating_sub(place).div_ceil(size).min(count);
    (first, end)
}

/// Writes what the span holds of a packed block that is at a place of a message. A block that lies in the span is packed
/// where it is to be.
fn write_block(method: Method, block: &[Iq; 12], span: Span, place: usize, into: &mut [u8])
    requires width { HasWidth method }
    requires order { span.from ≤ span.to }
    requires room { span.to - span.from ≤ length into.old }
    requires fits { place + length_of method ≤ 2 ^ 16 }
    ensures stands { (before : List ℕ) → length before ≡ place → Stands span before into.old → Stands span (before ++ packed_of method block.now) into.new }
    ensures len { length into.new ≡ length into.old }
{
    let size = block_len(method);
    if span.from <= place && place + size <= span.to {
        let at = place - span.from;
        pack_into(method, block, &mut into[at..at + size]);
    } else {
        write_cut(span, place, pack(method, block).as_slice(), into);
    }
}

/// Writes what the span holds of the packed PRBs of a section that are at a place of the message.
fn write_prbs<F: Fn(usize, u16) -> [Iq; 12]>(
    carrier: &Carrier,
    number: usize,
    section: &DataSection,
    source: &F,
    span: Span,
    place: usize,
    into: &mut [u8],
)
    requires width { HasWidth carrier.now.format.method }
    requires fits { SectionFits carrier.now section.now }
    requires callable { (prb : ℕ) → prb < carrier.now.prbs → F.pre source.now number prb }
    requires order { span.from ≤ span.to }
    requires room { span.to - span.from ≤ length into.old }
    requires place { place + count_of carrier.now.prbs section.now.num_prb * length_of carrier.now.format.method ≤ 2 ^ 16 }
    ensures len { length into.new ≡ length into.old }
    ensures stands { (block : ℕ → List SpecIq) → AnswersAt carrier.now.prbs (F.post source.now number) block
        → (before : List ℕ) → length before ≡ place → Stands span before into.old
        → Stands span (before ++ packed_prbs carrier.now.format.method block (first_of section.now.start_prb section.now.num_prb) (count_of carrier.now.prbs section.now.num_prb)) into.new }
{
    let (first, count) = prbs_of(carrier, section);
    let size = block_len(carrier.format.method);
    let (begin, end) = touched(span, place, size, count as usize);
    for k in begin..end {
        let block = source(number, first + k as u16);
        write_block(carrier.format.method, &block, span, place + k * size, into);
    }
}

/// Writes what the span holds of a section that is at a place of the message, and answers where
/// the section ends.
fn write_section<F: Fn(usize, u16) -> [Iq; 12]>(
    carrier: &Carrier,
    number: usize,
    section: &DataSection,
    source: &F,
    span: Span,
    place: usize,
    into: &mut [u8],
) -> usize
    requires width { HasWidth carrier.now.format.method }
    requires fits { SectionFits carrier.now section.now }
    requires callable { (prb : ℕ) → prb < carrier.now.prbs → F.pre source.now number prb }
    requires order { span.from ≤ span.to }
    requires room { span.to - span.from ≤ length into.old }
    requires place { place + section_size carrier.now section.now.num_prb ≤ 2 ^ 16 }
    ensures end { result ≡ place + section_size carrier.now section.now.num_prb }
    ensures len { length into.new ≡ length into.old }
    ensures stands { (block : ℕ → List SpecIq) → AnswersAt carrier.now.prbs (F.post source.now number) block
        → (before : List ℕ) → length before ≡ place → Stands span before into.old
        → Stands span (before ++ section_of carrier.now block section.now) into.new }
{
    let headers = section_headers(carrier.format, section);
    write_cut(span, place, headers.as_slice(), into);
    write_prbs(
        carrier,
        number,
        section,
        source,
        span,
        place + headers.len,
        into,
    );
    place + crate::section_size(carrier, section.num_prb)
}

/// Writes the bytes of a message in a span.
fn write_message<F: Fn(usize, u16) -> [Iq; 12]>(
    message: &DataMessage<'_>,
    source: &F,
    span: Span,
    into: &mut [u8],
)
    requires fits { MessageFits message.now.carrier message.now.head message.now.sections.now }
    requires callable { MayBeAsked (length message.now.sections.now) message.now.carrier.prbs (F.pre source.now) }
    requires order { span.from ≤ span.to }
    requires room { span.to - span.from ≤ length into.old }
    ensures len { length into.new ≡ length into.old }
    ensures stands { (blocks : ℕ → ℕ → List SpecIq) → AnswersBy (length message.now.sections.now) message.now.carrier.prbs (F.post source.now) blocks
        → Stands span (message_of message.now.carrier blocks message.now.head message.now.sections.now) into.new }
{
    write_cut(span, 0, &put_head(&message.head), into);
    let mut place = 4;
    for (number, section) in message.sections.iter().enumerate() {
        place = write_section(&message.carrier, number, section, source, span, place, into);
    }
}

/// Writes the frame of a piece of a U-plane message at the front, the message's bytes in a span, and
/// answers how many bytes it has: 8 more than the span.
///
/// `id` is the eAxC id of its endpoint; `seq` says the sequence id, whether this is the last piece,
/// and which piece it is. The source answers the samples of a PRB, from 0 on the carrier, of a
/// section, from 0 in the message; it is asked for each PRB that the span touches, and for no other.
/// The bytes after the frame stay as they are.
pub fn piece<F: Fn(usize, u16) -> [Iq; 12]>(
    id: u16,
    seq: SeqField,
    message: &DataMessage<'_>,
    source: &F,
    span: Span,
    into: &mut [u8],
) -> usize
    requires sub { seq.sub < 128 }
    requires fits { MessageFits message.now.carrier message.now.head message.now.sections.now }
    requires callable { MayBeAsked (length message.now.sections.now) message.now.carrier.prbs (F.pre source.now) }
    requires order { span.from ≤ span.to }
    requires within { span.to ≤ message_size message.now.carrier message.now.sections.now }
    requires room { 8 + (span.to - span.from) ≤ length into.old }
    ensures size { result ≡ 8 + (span.to - span.from) }
    ensures bytes { (blocks : ℕ → ℕ → List SpecIq) → AnswersBy (length message.now.sections.now) message.now.carrier.prbs (F.post source.now) blocks
        → take result into.new ≡ piece_frame id seq span.from span.to (message_of message.now.carrier blocks message.now.head message.now.sections.now) }
    ensures rest { drop result into.new ≡ drop result into.old }

    // It is one whole PDU, and its id, its sequence field and the message's bytes in the span are read back.
    ensures whole { (blocks : ℕ → ℕ → List SpecIq) → AnswersBy (length message.now.sections.now) message.now.carrier.prbs (F.post source.now) blocks
        → IsOneMessage 0 id seq (cut span.from span.to (message_of message.now.carrier blocks message.now.head message.now.sections.now)) (take result into.new) }
{
    let size = span.to - span.from;
    write_message(
        message,
        source,
        span,
        &mut into[TRANSPORT_LEN..TRANSPORT_LEN + size],
    );
    write_at(into, 0, &transport(0, id, seq, size as u16));
    TRANSPORT_LEN + size
}
