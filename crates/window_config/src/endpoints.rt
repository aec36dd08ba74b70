// The endpoints of a configuration.
ghost use Rattle.std.specs.Prelude.{◌≡◌, ◌≤◌, ◌↔◌, List, [], ◌∷◌, ◌++◌, length, IsErr, OnOk, OnErr};
ghost use Rattle.std.specs.Option.{option_map_or};
ghost use Rattle.window_config.specs.declared.endpoints.EndpointConfig.{EndpointConfig};

use arrayvec::ArrayVec;
use bfp_codec::Format;
use fh_base::Numerology;
use std::default::MadeWith;
use std::marker::Model;
use thiserror::Error;

/// One eAxC: an antenna's carrier at one numerology.
#[derive(Clone, Copy, Debug, PartialEq, Eq)]
pub struct EndpointConfig {
    /// The eAxC id.
    pub id: u16,
    pub numerology: Numerology,
    /// The PRBs of the carrier, 1 to 273.
    pub prbs: u16,
    /// How its samples are written.
    pub format: Format,
}

// the list's unused places hold a copy of some endpoint
impl MadeWith<EndpointConfig> for EndpointConfig {
    fn made_with(filler: EndpointConfig) -> EndpointConfig {
        filler
    }
}

/// Sixteen endpoints are there.
#[derive(Clone, Copy, Debug, PartialEq, Eq, Error)]
#[error("sixteen endpoints are there")]
pub struct ListFull;

/// At most sixteen endpoints, in the order of the document. Contracts see them as a list.
#[derive(Drop)]
pub struct EndpointList {
    // none while it is empty
    items: Option<ArrayVec<EndpointConfig, 16, EndpointConfig>>,
}

impl Model for EndpointList {
    ghost Value = { List EndpointConfig };

    ghost view = { λ l. option_map_or (λ v. v.items) l.items [] };
}

impl EndpointList {
    /// No endpoints.
    pub fn new() -> EndpointList
        ensures { result ≡ [] }
    {
        EndpointList { items: None }
    }

    /// Appends an endpoint. An error exactly where 16 are there, and nothing changes then.
    pub fn push(&mut self, e: EndpointConfig) -> Result<(), ListFull>
        ensures full { IsErr result ↔ (length self.old ≡ 16) }
        ensures ok { OnOk result (self.new ≡ self.old ++ e ∷ []) }
        ensures err { OnErr result (self.new ≡ self.old) }
    {
        match &mut self.items {
            Some(items) => match items.try_push(e) {
                Ok(()) => Ok(()),
                Err(_) => Err(ListFull),
            },
            None => {
                let mut items = ArrayVec::new_in(e);
                items.push(e);
                self.items = Some(items);
                Ok(())
            }
        }
    }

    /// The endpoints.
    pub fn as_slice(&self) -> &[EndpointConfig]
        ensures items { result.now ≡ self.now }
        ensures fits { length result.now ≤ 16 }
    {
        match &self.items {
            Some(items) => items.as_slice(),
            None => &[],
        }
    }
}
