// The interfaces of a file, as they are found.
ghost use Rattle.std.specs.Prelude.{◌≡◌, ◌≤◌, ◌++◌, length, OnOk};

use crate::pcapng_values::{Content, Interface};
use crate::values::Layout;
use fh_base::NoMemory;

/// The interfaces of all sections so far, where those of the last begin, and how it is read.
#[derive(Drop)]
pub struct Sections {
    pub layout: Layout,
    pub begin: usize,
    pub interfaces: Vec<Interface>,
}

impl Sections {
    ghost use Rattle.pcap_frames.specs.Parts.{after, added};
    ghost use Rattle.pcap_frames.specs.Passes.{interfaces_now, reading_now};
    ghost use Rattle.pcap_frames.specs.Values.{held_as};

    /// The interfaces of the last section.
    pub fn now(&self) -> &[Interface]
        requires { self.now.begin ≤ length self.now.interfaces.items }
        ensures { result.now ≡ interfaces_now self.now }
    {
        &self.interfaces[self.begin..]
    }

    /// Takes what a record or a block holds.
    pub fn take(&mut self, content: Content<'_>) -> Result<(), NoMemory>
        requires { self.old.begin ≤ length self.old.interfaces.items }
        ensures reading { OnOk result (reading_now self.new ≡ after (reading_now self.old) (held_as content.entry)) }
        ensures interfaces { OnOk result (self.new.interfaces.items ≡ self.old.interfaces.items ++ added (held_as content.entry)) }
        ensures within { OnOk result (self.new.begin ≤ length self.new.interfaces.items) }
    {
        match content {
            Content::Section(little) => {
                self.layout = Layout::Blocks(little);
                self.begin = self.interfaces.len();
                Ok(())
            },
            Content::Interface(interface) => {
                self.interfaces.push(interface)?;
                Ok(())
            },
            _ => Ok(()),
        }
    }
}
