//! The decoder of a frame.
ghost use Rattle.std.specs.Prelude.{◌≡◌, ℕ, ◌+◌, ◌<◌, ◌≤◌};
ghost use Rattle.ecpri_frames.specs.Phases.{awaited, begun};

use crate::heads::Head;
use crate::phases::{Phase, behind_payload};
use crate::refusals::{PduRefusal, PduWhy};
use crate::steps::{Feed, PduStep};
use crate::turns::{Turn, turn_at};

/// A decoder of one frame, which is received in pieces of any length. It keeps no payload.
#[derive(Clone, Copy)]
pub struct Pdu {
    place: usize,
    phase: Phase,
    ghost waits: { 0 < awaited phase },
    ghost behind: { begun phase ≤ place },
}

impl Pdu {
    ghost use Rattle.std.specs.Prelude.{List, [], ◌++◌, length, take, true, OnOk, OnErr, IfErr};
    ghost use Rattle.ecpri_frames.specs.States.{used_by, phase_of, tells, told, refusal_of, is_cut, Tells, Answers, StandsBehind};
    ghost use Rattle.ecpri_frames.specs.Phases.{feed_told};
    ghost use Rattle.ecpri_frames.specs.Messages.{Message, pdu};
    ghost use Rattle.ecpri_frames.specs.Spelling.{Spells};
    ghost use Rattle.ecpri_frames.specs.Turns.{is_outside};

    /// A decoder at the start of a frame.
    pub fn new() -> Self
        ensures start { (bytes : List ℕ) → tells result bytes ≡ told bytes }
        ensures used { used_by result ≡ 0 }
        ensures stands { StandsBehind result [] }
    {
        Pdu {
            place: 0,
            phase: Phase::First,
        }
    }

    /// Takes the next bytes of the frame, one or more, and answers how many it used and what they
    /// tell. At least one is used unless the PDU is over or refused. The caller feeds the rest of
    /// the piece, and what is after it, in further calls.
    pub fn feed(&mut self, piece: &[u8]) -> PduStep
        requires some { 0 < length piece.now }
        requires fits { used_by self.old + length piece.now ≤ usize.MAX }
        ensures within { result.used ≤ length piece.now }
        ensures used { used_by self.new ≡ used_by self.old + result.used }
        ensures tells { Tells self.old self.new (take result.used piece.now)
            (feed_told (used_by self.new) result.what piece.now) }
        ensures answers { Answers self.old self.new result.used (length piece.now) result.what }
        // As it was after the bytes used before, it is after these and those that it used,
        // and the answer is what these add to what the frame tells.
        ensures stands { (bytes : List ℕ) → StandsBehind self.old bytes
            → StandsBehind self.new (bytes ++ take result.used piece.now) }
        ensures told { (bytes : List ℕ) → StandsBehind self.old bytes
            → (told (bytes ++ take result.used piece.now)).items
            ≡ (told bytes).items ++ feed_told (used_by self.new) result.what piece.now }
    {
        self.advance(piece)
    }

    fn advance(&mut self, piece: &[u8]) -> PduStep
        requires some { 0 < length piece.now }
        requires fits { used_by self.old + length piece.now ≤ usize.MAX }
        ensures within { result.used ≤ length piece.now }
        ensures used { used_by self.new ≡ used_by self.old + result.used }
        ensures tells { Tells self.old self.new (take result.used piece.now)
            (feed_told (used_by self.new) result.what piece.now) }
        ensures answers { Answers self.old self.new result.used (length piece.now) result.what }
    {
        match self.phase {
            Phase::Over => PduStep {
                used: 0,
                what: Feed::End,
            },
            Phase::Faulty(place) => PduStep {
                used: 0,
                what: Feed::Refused(PduRefusal {
                    place,
                    why: PduWhy::Revision,
                }),
            },
            Phase::Body(head, left) => self.payload(head, left, piece),
            _ => self.headers(piece),
        }
    }

    /// The next bytes of a payload.
    fn payload(&mut self, head: Head, left: u16, piece: &[u8]) -> PduStep
        requires body { phase_of self.old ≡ Phase.Body head left }
        requires some { 0 < length piece.now }
        requires fits { used_by self.old + length piece.now ≤ usize.MAX }
        ensures within { result.used ≤ length piece.now }
        ensures used { used_by self.new ≡ used_by self.old + result.used }
        ensures tells { Tells self.old self.new (take result.used piece.now)
            (feed_told (used_by self.new) result.what piece.now) }
        ensures answers { Answers self.old self.new result.used (length piece.now) result.what }
    {
        let len = piece.len();
        if len < left as usize {
            self.place += len;
            self.phase = Phase::Body(head, left - len as u16);
            PduStep {
                used: len,
                what: Feed::Body {
                    from: 0,
                    to: len,
                    last: false,
                },
            }
        } else {
            let used = left as usize;
            self.place += used;
            self.phase = behind_payload(head);
            PduStep {
                used,
                what: Feed::Body {
                    from: 0,
                    to: used,
                    last: true,
                },
            }
        }
    }

    /// The next bytes of headers and padding, up to the end of a header.
    fn headers(&mut self, piece: &[u8]) -> PduStep
        requires outside { is_outside (phase_of self.old) ≡ true }
        requires some { 0 < length piece.now }
        requires fits { used_by self.old + length piece.now ≤ usize.MAX }
        ensures within { result.used ≤ length piece.now }
        ensures used { used_by self.new ≡ used_by self.old + result.used }
        ensures tells { Tells self.old self.new (take result.used piece.now)
            (feed_told (used_by self.new) result.what piece.now) }
        ensures answers { Answers self.old self.new result.used (length piece.now) result.what }
    {
        for (i, byte) in piece.iter().enumerate() {
            let place = self.place;
            let turn = turn_at(self.phase, place, *byte);
            self.place += 1;
            match turn {
                Turn::On(phase) => self.phase = phase,
                Turn::Told(phase, head) => {
                    self.phase = phase;
                    return PduStep {
                        used: i + 1,
                        what: Feed::Message(head),
                    };
                }
                Turn::Bad => {
                    self.phase = Phase::Faulty(place);
                    return PduStep {
                        used: i + 1,
                        what: Feed::Refused(PduRefusal {
                            place,
                            why: PduWhy::Revision,
                        }),
                    };
                }
            }
        }
        PduStep {
            used: piece.len(),
            what: Feed::More,
        }
    }

    /// Whether the bytes used so far are a whole PDU; if not, the first fault of a frame that ends
    /// with them.
    pub fn finish(&self) -> Result<(), PduRefusal>
        ensures tells { refusal_of result ≡ (tells self.now []).refusal }
        ensures told { (bytes : List ℕ) → StandsBehind self.now bytes
            → refusal_of result ≡ (told bytes).refusal }
        ensures whole { OnOk result ((bytes : List ℕ) → StandsBehind self.now bytes
            → Spells 0 bytes (pdu bytes).messages) }
        ensures none { OnErr result ((bytes : List ℕ) → StandsBehind self.now bytes
            → (messages : List Message) → Spells 0 bytes messages → ⊥) }
        ensures place { IfErr result (λ r. is_cut r.why ≡ true → r.place ≡ used_by self.now) }
    {
        self.ending()
    }

    fn ending(&self) -> Result<(), PduRefusal>
        ensures tells { refusal_of result ≡ (tells self.now []).refusal }
        ensures place { IfErr result (λ r. is_cut r.why ≡ true → r.place ≡ used_by self.now) }
    {
        let why = match self.phase {
            Phase::Over => return Ok(()),
            Phase::Faulty(place) => {
                return Err(PduRefusal {
                    place,
                    why: PduWhy::Revision,
                });
            }
            Phase::Padding(_) => PduWhy::NoPadding,
            _ => PduWhy::Truncated,
        };
        Err(PduRefusal {
            place: self.place,
            why,
        })
    }
}
