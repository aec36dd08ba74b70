// What a U-plane message has told so far.
ghost use Rattle.std.specs.Prelude.{◌≡◌, OnOk};
ghost use Rattle.unit_model.specs.Decoding.{with_block};

use bfp_codec::Wide;
use fh_base::{List, NoMemory};
use std::alloc::Global;
use std::marker::Model;
use uplane_sections::{UFeed, UHead, USection};

/// A section with the samples of its PRBs, in their order.
#[derive(Drop)]
pub(crate) struct Part {
    pub(crate) section: USection,
    pub(crate) blocks: List<[Wide; 12]>,
}

impl Model for Part {
    ghost use Rattle.unit_model.specs.Decoding.{SectionBlocks as PartTold};

    ghost Value = { PartTold };

    ghost view = { λ p. record { section = p.section; blocks = p.blocks } };
}

impl Part {
    ghost use Rattle.unit_model.specs.Decoding.{without_blocks, longer};

    /// A section of which no PRB was read yet.
    fn begin(alloc: Global, section: USection) -> Part
        ensures { result ≡ without_blocks section }
    {
        Part {
            section,
            blocks: List::new(alloc),
        }
    }

    /// The next PRB of the section.
    fn lengthen(&mut self, samples: [Wide; 12]) -> Result<(), NoMemory>
        ensures { OnOk result (self.new ≡ longer samples self.old) }
    {
        self.blocks.push(samples)
    }
}

/// What a message has told so far: its header, and its sections, the newest first.
#[derive(Drop)]
pub(crate) struct Gathered {
    pub(crate) head: Option<UHead>,
    pub(crate) parts: Vec<Part>,
}

impl Model for Gathered {
    ghost use Rattle.unit_model.specs.Decoding.{Gathering};

    ghost Value = { Gathering };

    ghost view = { λ g. record { head = g.head; parts = g.parts.items } };
}

/// A further PRB of the newest section.
fn lengthen_first(parts: &mut Vec<Part>, samples: [Wide; 12]) -> Result<(), NoMemory>
    ensures { OnOk result (parts.new.items ≡ with_block samples parts.old.items) }
{
    if parts.is_empty() {
        return Ok(());
    }
    parts[0].lengthen(samples)
}

impl Gathered {
    ghost use Rattle.unit_model.specs.Decoding.{nothing_told, gathered, with_item};
    ghost use Rattle.uplane_sections.specs.Messages.{Section, Block};
    ghost use Rattle.uplane_sections.specs.Phases.{feed_told};

    /// Nothing.
    pub(crate) fn new(alloc: Global) -> Gathered
        ensures { result ≡ nothing_told }
    {
        Gathered {
            head: None,
            parts: Vec::new(alloc),
        }
    }

    /// A further section.
    fn begin(&mut self, alloc: Global, section: USection) -> Result<(), NoMemory>
        ensures { OnOk result (self.new ≡ with_item self.old (Section section)) }
    {
        self.parts.insert(0, Part::begin(alloc, section))?;
        Ok(())
    }

    /// What a walker told of the message.
    #[tactic(auto, unfolding(unit_model::specs::Decoding::gathered))]
    pub(crate) fn put(&mut self, alloc: Global, what: UFeed) -> Result<(), NoMemory>
        ensures { OnOk result (self.new ≡ gathered self.old (feed_told what)) }
    {
        match what {
            UFeed::Head(head) => {
                self.head = Some(head);
                Ok(())
            }
            UFeed::Section(section) => self.begin(alloc, section),
            UFeed::Block { samples, .. } => lengthen_first(&mut self.parts, samples),
            UFeed::More | UFeed::Refused(_) => Ok(()),
        }
    }
}
