// The exchange of one measurement id, as a table over its states.
ghost use Rattle.std.specs.Prelude.{◌≡◌, ◌<◌, ◌^◌, IfSome};

use crate::message::{DelayMessage, value};
use crate::stamps::{Stamp, delay, with_stamp, without_stamp};
use crate::states::{Exchange, OwnState, PeerState};
use crate::steps::{Begun, Kind, MeterStep};

const REQUEST: u8 = 0;

const REQUEST_WITH_FOLLOW_UP: u8 = 1;

const RESPONSE: u8 = 2;

const REMOTE_REQUEST: u8 = 3;

const REMOTE_REQUEST_WITH_FOLLOW_UP: u8 = 4;

const FOLLOW_UP: u8 = 5;

impl Exchange {
    ghost use Rattle.delay_measure.specs.Table.{after_begin, after_message, answer_in, request_in, announced_in, follow_up_in, response_in, remote_in, remote_two_in, kept_for, exchange, sent_at_begin, sent_at_step, CanBeWritten};

    /// Nothing is begun.
    pub(crate) const UNUSED: Exchange = Exchange {
        own: OwnState::Idle,
        peer: PeerState::Nothing,
    };

    /// Begins a measurement, where a message sent now has the stamp `now`.
    pub(crate) fn begin(self, kind: Kind, id: u8, now: Stamp) -> (Exchange, Begun)
        ensures table { result ≡ after_begin self kind id now }
        ensures written { CanBeWritten (sent_at_begin result.1) }
    {
        if self.own != OwnState::Idle {
            return (self, Begun::InUse);
        }
        match kind {
            Kind::One => {
                let request = with_stamp(id, REQUEST, now);
                (self.with_own(OwnState::Waiting(now)), Begun::Send(request))
            }
            Kind::Two => {
                let announced = without_stamp(id, REQUEST_WITH_FOLLOW_UP);
                let follow_up = with_stamp(id, FOLLOW_UP, now);
                (
                    self.with_own(OwnState::Waiting(now)),
                    Begun::SendTwo(announced, follow_up),
                )
            }
            Kind::RemoteOne => {
                let request = without_stamp(id, REMOTE_REQUEST);
                (self.with_own(OwnState::Remote), Begun::Send(request))
            }
            Kind::RemoteTwo => {
                let request = without_stamp(id, REMOTE_REQUEST_WITH_FOLLOW_UP);
                (self.with_own(OwnState::Remote), Begun::Send(request))
            }
        }
    }

    /// Takes a message, where one sent now has the stamp `sending` and one received now the stamp `receiving`.
    pub(crate) fn take(
        self,
        m: DelayMessage,
        sending: Stamp,
        receiving: Stamp,
    ) -> (Exchange, MeterStep)
        ensures table { result ≡ after_message self m sending receiving }
        ensures written { CanBeWritten (sent_at_step result.1) }
    {
        match m.action {
            REQUEST => self.request(m, receiving),
            REQUEST_WITH_FOLLOW_UP => self.request_with_follow_up(receiving),
            RESPONSE => self.response(m),
            REMOTE_REQUEST => self.remote_request(m.id, sending),
            REMOTE_REQUEST_WITH_FOLLOW_UP => self.remote_request_with_follow_up(m.id, sending),
            FOLLOW_UP => self.follow_up(m),
            _ => (self, MeterStep::Unknown),
        }
    }

    fn request(self, m: DelayMessage, now: Stamp) -> (Exchange, MeterStep)
        ensures table { result ≡ request_in self.peer self.own m now }
        ensures written { CanBeWritten (sent_at_step result.1) }
    {
        match self.kept_response(m) {
            Some(response) => (self, MeterStep::Again(response)),
            None => self.answer(m, now),
        }
    }

    fn request_with_follow_up(self, now: Stamp) -> (Exchange, MeterStep)
        ensures table { result ≡ announced_in self.peer self.own now }
        ensures written { CanBeWritten (sent_at_step result.1) }
    {
        match self.peer {
            PeerState::Noted(_) => (self, MeterStep::Repeat),
            _ => (self.with_peer(PeerState::Noted(now)), MeterStep::Noted),
        }
    }

    fn follow_up(self, m: DelayMessage) -> (Exchange, MeterStep)
        ensures table { result ≡ follow_up_in self.peer self.own m }
        ensures written { CanBeWritten (sent_at_step result.1) }
    {
        if let PeerState::Noted(received) = self.peer {
            return self.answer(m, received);
        }
        match self.kept_response(m) {
            Some(response) => (self, MeterStep::Again(response)),
            None => (self, MeterStep::Unknown),
        }
    }

    // The Response that was sent, where this very message was answered.
    fn kept_response(self, m: DelayMessage) -> Option<DelayMessage>
        ensures kept { result ≡ kept_for self.peer m }
        ensures written { IfSome result (λ r. r.seconds < 2 ^ 48) }
    {
        match self.peer {
            PeerState::Answered(seen, received) if seen == m => {
                Some(with_stamp(seen.id, RESPONSE, received))
            }
            _ => None,
        }
    }

    // Answers a request by a Response with the stamp of its arrival.
    fn answer(self, m: DelayMessage, received: Stamp) -> (Exchange, MeterStep)
        ensures table { result ≡ answer_in self.own m received }
        ensures written { CanBeWritten (sent_at_step result.1) }
    {
        let response = with_stamp(m.id, RESPONSE, received);
        let answered = self.with_peer(PeerState::Answered(m, received));
        if self.own != OwnState::Remote {
            return (answered, MeterStep::Send(response));
        }
        let result = delay(
            value(m),
            m.comp,
            received.nanoseconds as u128,
            received.comp,
        );
        (
            answered.with_own(OwnState::Done),
            MeterStep::SendResult(response, result),
        )
    }

    fn response(self, m: DelayMessage) -> (Exchange, MeterStep)
        ensures table { result ≡ response_in self.own self.peer m }
        ensures written { CanBeWritten (sent_at_step result.1) }
    {
        match self.own {
            OwnState::Waiting(sent) => {
                let result = delay(sent.nanoseconds as u128, sent.comp, value(m), m.comp);
                (self.with_own(OwnState::Done), MeterStep::Result(result))
            }
            OwnState::Done => (self, MeterStep::Repeat),
            _ => (self, MeterStep::Unknown),
        }
    }

    fn remote_request(self, id: u8, now: Stamp) -> (Exchange, MeterStep)
        ensures table { result ≡ remote_in self.own self.peer id now }
        ensures written { CanBeWritten (sent_at_step result.1) }
    {
        if self.own != OwnState::Idle {
            return (self, MeterStep::Repeat);
        }
        let request = with_stamp(id, REQUEST, now);
        (
            self.with_own(OwnState::Waiting(now)),
            MeterStep::Send(request),
        )
    }

    fn remote_request_with_follow_up(self, id: u8, now: Stamp) -> (Exchange, MeterStep)
        ensures table { result ≡ remote_two_in self.own self.peer id now }
        ensures written { CanBeWritten (sent_at_step result.1) }
    {
        if self.own != OwnState::Idle {
            return (self, MeterStep::Repeat);
        }
        let announced = without_stamp(id, REQUEST_WITH_FOLLOW_UP);
        let follow_up = with_stamp(id, FOLLOW_UP, now);
        (
            self.with_own(OwnState::Waiting(now)),
            MeterStep::SendTwo(announced, follow_up),
        )
    }

    fn with_own(self, own: OwnState) -> Exchange
        ensures { result ≡ exchange own self.peer }
    {
        Exchange { own, ..self }
    }

    fn with_peer(self, peer: PeerState) -> Exchange
        ensures { result ≡ exchange self.own peer }
    {
        Exchange { peer, ..self }
    }
}
