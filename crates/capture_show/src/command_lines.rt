// The lines of messages with an eAxC id: commands, their sections, and data.
ghost use Rattle.std.specs.Prelude.{◌≡◌, ◌≤◌, ◌++◌, ◌∷◌, [], length};
ghost use Rattle.cplane_sections.specs.Header.{kind_of};
ghost use Rattle.capture_show.specs.Lines.{ShownLine};
ghost use Rattle.capture_show.specs.Messages.{address_members, moment_members, body_members, command_line, freq_members, section_line, refused_line, header_of, moment_of, header_members, data_line};
ghost use Rattle.ecpri_fragments.specs.Sequence.{id_of, sequence_of, application, is_fragmented};

use crate::line::{Shown, count, flag, said, signed};
use crate::values::{Kind, Member, Name, Word};
use cplane_sections::{CBody, CHead, CSection};
use ecpri_fragments::{SeqField, read_seq};
use uplane_sections::{UHead, read_head};

/// The eAxC id of a payload.
#[tactic(auto, using(std::proofs::lemmas::Grind::common_steps, crate::proofs::Rules::fields))]
pub fn id_at(payload: &[u8]) -> u16
    requires { 4 ≤ length payload.now }
    ensures { result ≡ id_of payload.now }
{
    u16::from_be_bytes([payload[0], payload[1]])
}

/// The sequence field of a payload.
pub fn sequence_at(payload: &[u8]) -> SeqField
    requires { 4 ≤ length payload.now }
    ensures { result ≡ sequence_of payload.now }
{
    read_seq([payload[2], payload[3]])
}

/// The application's bytes of a payload.
pub fn application(payload: &[u8]) -> &[u8]
    requires { 4 ≤ length payload.now }
    ensures { result.now ≡ application payload.now }
{
    &payload[4..]
}

/// Whether a command is not one whole message.
pub fn is_fragmented(seq: SeqField) -> bool
    ensures { result ≡ is_fragmented seq }
{
    !(seq.last && seq.sub == 0)
}

// Place, id and sequence field.
#[tactic(auto, unfolding(crate::specs::Messages::address_members))]
fn address(place: usize, id: u16, seq: SeqField) -> [Member; 5]
    ensures { result ≡ address_members place id seq }
{
    [
        count(Name::Place, place as u64),
        said(Name::Id, Word::Hex4(id)),
        count(Name::Seq, u64::from(seq.seq)),
        flag(Name::E, seq.last),
        count(Name::Sub, u64::from(seq.sub)),
    ]
}

// The direction, the filter and the symbol of a command.
#[tactic(auto, unfolding(crate::specs::Messages::moment_members))]
fn command_moment(head: &CHead) -> [Member; 6]
    ensures { result ≡ moment_members head.now.down head.now.filter head.now.frame_id head.now.subframe head.now.slot head.now.start_symbol }
{
    [
        flag(Name::Down, head.down),
        count(Name::Filter, u64::from(head.filter)),
        count(Name::Frame, u64::from(head.frame_id)),
        count(Name::Subframe, u64::from(head.subframe)),
        count(Name::Slot, u64::from(head.slot)),
        count(Name::Symbol, u64::from(head.start_symbol)),
    ]
}

// The section type of a header.
fn type_of(body: CBody) -> u8
    ensures { result ≡ kind_of body }
{
    match body {
        CBody::Idle { .. } => 0,
        CBody::Normal { .. } => 1,
        CBody::Offset { .. } => 3,
    }
}

// Appends what the section type adds.
#[tactic(auto, unfolding(crate::specs::Messages::body_members))]
fn add_body(shown: &mut Shown, body: CBody)
    requires { length shown.old.members ≤ 13 }
    ensures { shown.new ≡ record { kind = shown.old.kind; members = shown.old.members ++ body_members body } }
{
    match body {
        CBody::Idle {
            time_offset,
            structure,
            cp_length,
        } => shown.add(&[
            count(Name::Offset, u64::from(time_offset)),
            said(Name::Structure, Word::Hex2(structure)),
            count(Name::Cp, u64::from(cp_length)),
        ]),
        CBody::Normal { comp } => shown.add(&[said(Name::Comp, Word::Hex2(comp))]),
        CBody::Offset {
            time_offset,
            structure,
            cp_length,
            comp,
        } => shown.add(&[
            count(Name::Offset, u64::from(time_offset)),
            said(Name::Structure, Word::Hex2(structure)),
            count(Name::Cp, u64::from(cp_length)),
            said(Name::Comp, Word::Hex2(comp)),
        ]),
    }
}

/// The line of a command.
pub fn command_line(place: usize, id: u16, seq: SeqField, head: &CHead) -> Shown
    ensures { result ≡ command_line place id seq head.now }
{
    let mut shown = Shown::of(Kind::Command, &address(place, id, seq));
    shown.add(&command_moment(head));
    shown.add(&[
        count(Name::Sections, u64::from(head.count)),
        count(Name::MessageType, u64::from(type_of(head.body))),
    ]);
    add_body(&mut shown, head.body);
    shown
}

/// The line of a section of a command of this section type.
#[tactic(auto, unfolding(crate::specs::Messages::section_line))]
pub fn section_line(body: CBody, s: &CSection) -> Shown
    ensures { result ≡ section_line (kind_of body) s.now }
{
    let mut shown = Shown::of(
        Kind::Section,
        &[
            count(Name::Id, u64::from(s.id)),
            count(Name::Symbol, u64::from(s.symbol)),
            count(Name::Prb, u64::from(s.start_prb)),
            count(Name::Num, u64::from(s.num_prb)),
            said(Name::Mask, Word::Hex3(s.mask)),
            count(Name::Symbols, u64::from(s.num_symbol)),
            count(Name::Beam, u64::from(s.beam)),
        ],
    );
    if type_of(body) == 3 {
        shown.add(&[signed(Name::Freq, i64::from(s.freq_offset))]);
    }
    shown
}

/// The line of a command that is refused, at a place of its application message.
#[tactic(auto, unfolding(crate::specs::Messages::refused_line))]
pub fn refused_line(place: usize, at: usize, why: Word) -> Shown
    ensures { result ≡ refused_line place at why }
{
    Shown::of(
        Kind::Refused,
        &[
            count(Name::Place, place as u64),
            count(Name::At, at as u64),
            said(Name::Why, why),
        ],
    )
}

// The direction, the filter and the symbol of data.
#[tactic(auto, unfolding(crate::specs::Messages::moment_members))]
fn data_moment(head: UHead) -> [Member; 6]
    ensures { result ≡ moment_of head }
{
    [
        flag(Name::Down, head.down),
        count(Name::Filter, u64::from(head.filter)),
        count(Name::Frame, u64::from(head.frame_id)),
        count(Name::Subframe, u64::from(head.subframe)),
        count(Name::Slot, u64::from(head.slot)),
        count(Name::Symbol, u64::from(head.symbol)),
    ]
}

// The header in the first four bytes.
fn header_at(bytes: &[u8]) -> UHead
    requires { 4 ≤ length bytes.now }
    ensures { result ≡ header_of bytes.now }
{
    read_head([bytes[0], bytes[1], bytes[2], bytes[3]])
}

// Appends the header of a first fragment that has one.
fn add_header(shown: &mut Shown, seq: SeqField, bytes: &[u8])
    requires { length shown.old.members ≤ 11 }
    ensures { shown.new ≡ record { kind = shown.old.kind; members = shown.old.members ++ header_members seq bytes.now } }
{
    if seq.sub == 0 && bytes.len() >= 4 {
        shown.add(&data_moment(header_at(bytes)));
    }
}

/// The line of a message of data.
pub fn data_line(place: usize, payload: &[u8]) -> Shown
    requires { 4 ≤ length payload.now }
    ensures { result ≡ data_line place payload.now }
{
    let seq = sequence_at(payload);
    let bytes = application(payload);
    let mut shown = Shown::of(Kind::Data, &address(place, id_at(payload), seq));
    shown.add(&[count(Name::Bytes, bytes.len() as u64)]);
    add_header(&mut shown, seq, bytes);
    shown
}
