//! The whole messages of a frame that is held whole.
ghost use Rattle.std.specs.Prelude.{◌≡◌, ◌≤◌, length, drop};
ghost use Rattle.ecpri_frames.specs.Messages.{pdu as pdu_of};
ghost use Rattle.ecpri_frames.specs.States.{used_by, tells};

use crate::decoding::Pdu;
use crate::heads::Head;
use crate::refusals::PduRefusal;
use crate::steps::Feed;

/// A message of a frame, with its whole payload (eCPRI 2.0, section 3.1.2).
#[derive(Clone, Copy, Debug, PartialEq, Eq)]
pub struct WholeMessage<'a> {
    /// The byte of the frame, from 0, at which the header begins.
    pub place: usize,
    /// The header.
    pub head: Head,
    /// The whole payload.
    pub payload: &'a [u8],
    // As many bytes as the header says.
    pub ghost whole: { length payload.now ≡ head.size },
}

/// The whole messages of a frame, in order: what [`messages`](crate::messages) gives.
#[derive(Clone, Copy)]
pub struct Messages<'a> {
    pub(crate) frame: &'a [u8],
    pub(crate) at: usize,
    pub(crate) pdu: Pdu,
    ghost within: { at ≤ length frame.now },
    ghost used: { used_by pdu ≡ at },
    ghost refusal: { (tells pdu (drop at frame.now)).refusal ≡ (pdu_of frame.now).refusal },
}

impl<'a> Messages<'a> {
    ghost use Rattle.std.specs.Prelude.{◌≡◌};
    ghost use Rattle.ecpri_frames.specs.Messages.{pdu as pdu_of};
    ghost use Rattle.ecpri_frames.specs.Left.{frame_of};

    /// The first fault of the frame, if it has one, whichever of its messages were given so far.
    pub fn refusal(&self) -> Option<PduRefusal>
        ensures { result ≡ (pdu_of (frame_of self.now)).refusal }
    {
        let mut pdu = self.pdu;
        let mut at = self.at;
        while at < self.frame.len() {
            let step = pdu.feed(&self.frame[at..]);
            match step.what {
                Feed::End => return None,
                Feed::Refused(refusal) => return Some(refusal),
                _ => at += step.used,
            }
        }
        pdu.finish().err()
    }
}

impl<'a> Iterator for Messages<'a> {
    ghost use Rattle.std.specs.Iterator.{item_count};
    ghost use Rattle.ecpri_frames.specs.Left.{left_of, GivesMessage};

    type Item = WholeMessage<'a>;

    ghost next_gives = { GivesMessage };

    ghost remaining = { item_count left_of };

    fn next(&mut self) -> Option<WholeMessage<'a>> {
        let mut held = None;
        while self.at < self.frame.len() {
            let start = self.at;
            let step = self.pdu.feed(&self.frame[start..]);
            self.at += step.used;
            match step.what {
                Feed::Message(head) => {
                    let place = self.at - 4;
                    if head.size == 0 {
                        return Some(WholeMessage {
                            place,
                            head,
                            payload: &[],
                        });
                    }
                    held = Some((place, head));
                }
                Feed::Body { from, to, last } => {
                    if !last {
                        // The frame ends in this payload.
                        return None;
                    }
                    if let Some((place, head)) = held {
                        return Some(WholeMessage {
                            place,
                            head,
                            payload: &self.frame[start + from..start + to],
                        });
                    }
                }
                Feed::More | Feed::End | Feed::Refused(_) => return None,
            }
        }
        None
    }
}
