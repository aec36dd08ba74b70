// The endpoints of a text.
ghost use Rattle.std.specs.Prelude.{◌≡◌, ◌≤◌, ◌<◌, ◌∷◌, ◌++◌, [], length};
ghost use Rattle.pictures.specs.Endpoints.{with_id};
ghost use Rattle.pictures.specs.declared.endpoints.Endpoint.{Endpoint};

use crate::endpoints::Endpoint;
use arrayvec::ArrayVec;
use fh_base::Numerology;
use std::marker::Model;

impl Default for Endpoint {
    fn default() -> Self {
        Endpoint {
            id: *b"0000",
            numerology: Numerology::extended(),
            prbs: 1,
        }
    }
}

/// The most endpoints of a text.
pub const MOST_ENDPOINTS: usize = 16;

/// At most sixteen endpoints, in the order of their lines. Contracts see them as a list.
#[derive(Drop)]
pub struct Endpoints {
    items: ArrayVec<Endpoint, MOST_ENDPOINTS>,
}

impl Model for Endpoints {
    ghost use Rattle.std.specs.Prelude.{List};
    ghost use Rattle.pictures.specs.declared.endpoints.Endpoint.{Endpoint};

    ghost Value = { List Endpoint };

    ghost view = { λ l. l.items.items };
}

impl Endpoints {
    /// No endpoints.
    pub(crate) fn new() -> Endpoints
        ensures { result ≡ [] }
    {
        Endpoints {
            items: ArrayVec::new(),
        }
    }

    /// Appends an endpoint where there is room.
    pub(crate) fn push(&mut self, e: Endpoint)
        requires { length self.old < MOST_ENDPOINTS }
        ensures { self.new ≡ self.old ++ e ∷ [] }
    {
        self.items.push(e);
    }

    /// The endpoints.
    pub fn as_slice(&self) -> &[Endpoint]
        ensures items { result.now ≡ self.now }
        ensures fits { length result.now ≤ MOST_ENDPOINTS }
    {
        self.items.as_slice()
    }
}

/// The index of the first endpoint with an id.
#[tactic(auto, unfolding(crate::specs::Endpoints::with_id))]
pub(crate) fn with_id(endpoints: &[Endpoint], id: &[u8]) -> Option<usize>
    ensures { result ≡ with_id endpoints.now id.now }
{
    endpoints.iter().position(|e| e.id.as_slice() == id)
}
