//! C-plane frames.
ghost use Rattle.std.specs.Prelude.{◌≡◌, ℕ, ◌+◌, ◌≤◌, ◌*◌, List, [], ◌∷◌, ◌++◌, length, take, drop};
ghost use Rattle.fh_base.specs.declared.values.Shape.{Shape};
ghost use Rattle.cplane_sections.specs.Message.{HeadFits, SectionFits, Admits};
ghost use Rattle.cplane_sections.specs.Header.{kind_of, size_of_head};
ghost use Rattle.cplane_sections.specs.Section.{size_of_section};
ghost use Rattle.cplane_sections.specs.Writes.{IsReadAs, WritesMessage};
ghost use Rattle.frame_bytes.specs.Transport.{IsOneMessage};
ghost use Rattle.frame_bytes.specs.Written.{bytes_of};
ghost use Rattle.frame_bytes.specs.Spelled.{in_bytes};
ghost use Rattle.frame_bytes.specs.Commands.{head_fields, section_fields, command_of, command_frame, whole_seq};

use crate::cuts::write_at;
use crate::parts::Part;
use crate::transport::{TRANSPORT_LEN, transport};
use cplane_sections::{CHead, CSection, put_head, put_section};
use ecpri_fragments::SeqField;

/// A header.
fn header(head: &CHead) -> Part
    requires { HeadFits head.now }
    ensures size { result.len ≡ size_of_head (kind_of head.now.body) }
    ensures bytes { bytes_of result ≡ in_bytes (head_fields head.now) }
    ensures message { WritesMessage head.now [] (bytes_of result) }
{
    let mut bytes = [0; 12];
    let size = put_head(head, &mut bytes);
    Part::new(bytes, size)
}

/// A section of a message with this header.
fn body(head: &CHead, section: &CSection) -> Part
    requires { SectionFits section.now }
    ensures size { result.len ≡ size_of_section (kind_of head.now.body) }
    ensures bytes { bytes_of result ≡ in_bytes (section_fields (kind_of head.now.body) section.now) }
    ensures read_back { (shape : Shape) → (front : List ℕ) → WritesMessage head.now [] front → Admits shape head.now (section.now ∷ [])
        → IsReadAs shape head.now (section.now ∷ []) (front ++ bytes_of result) }
{
    let mut bytes = [0; 12];
    let size = put_section(head, section, &mut bytes);
    Part::new(bytes, size)
}

/// Writes the frame of a C-plane message with this header and one section at the front, and answers
/// how many bytes it has: 24 in section type 1, 28 in type 0, 32 in type 3.
///
/// `id` is the eAxC id of its endpoint, `number` the sequence id. E is 1 and the subsequence id 0.
/// The bytes after the frame stay as they are.
pub fn command(id: u16, number: u8, head: &CHead, section: &CSection, into: &mut [u8]) -> usize
    requires room { 32 ≤ length into.old }
    requires head { HeadFits head.now }
    requires section { SectionFits section.now }
    ensures short { result ≤ 32 }
    ensures bytes { take result into.new ≡ command_frame id number head.now section.now }
    ensures rest { drop result into.new ≡ drop result into.old }

    // It is one whole PDU with this id and number, and its application bytes are read back where the tests admit them.
    ensures whole { IsOneMessage 2 id (whole_seq number) (command_of head.now section.now) (take result into.new) }
    ensures read_back { (shape : Shape) → Admits shape head.now (section.now ∷ [])
        → IsReadAs shape head.now (section.now ∷ []) (command_of head.now section.now) }
{
    let header = header(head);
    let body = body(head, section);
    let seq = SeqField {
        seq: number,
        last: true,
        sub: 0,
    };
    write_at(
        into,
        0,
        &transport(2, id, seq, (header.len + body.len) as u16),
    );
    write_at(into, TRANSPORT_LEN, header.as_slice());
    write_at(into, TRANSPORT_LEN + header.len, body.as_slice());
    TRANSPORT_LEN + header.len + body.len
}
