// A second pass over a file.
ghost use Rattle.std.specs.Prelude.{◌≤◌, ◌<◌, length, IfSome};

use crate::parts::part;
use crate::pcapng_values::{Content, Interface};
use crate::values::Layout;

/// What is left of a file, and the interfaces of the section that is read and of all later ones.
#[derive(Clone, Copy)]
pub struct Walk<'a> {
    pub rest: &'a [u8],
    pub layout: Layout,
    pub interfaces: &'a [Interface],
    /// How many of them the section has so far.
    pub count: usize,
}

/// What the next record or block holds, and what is left after it.
#[derive(Clone, Copy)]
pub struct Step<'a> {
    pub content: Content<'a>,
    pub behind: Walk<'a>,
}

impl<'a> Walk<'a> {
    ghost use Rattle.pcap_frames.specs.Walks.{IsWalk, Expects, IsBehind, Steps};
    ghost use Rattle.pcap_frames.specs.Values.{held_as};

    // What is left after a record or a block.
    fn behind(self, content: Content<'a>, size: usize) -> Walk<'a>
        requires size { size ≤ length self.rest.now }
        requires within { self.count ≤ length self.interfaces.now }
        requires next { Expects self (held_as content) }
        ensures { IsBehind self.entry (held_as content.entry) size result }
    {
        let rest = &self.rest[size..];
        match content {
            Content::Section(little) => Walk {
                rest,
                layout: Layout::Blocks(little),
                interfaces: &self.interfaces[self.count..],
                count: 0,
            },
            Content::Interface(_) => Walk {
                rest,
                count: self.count + 1,
                ..self
            },
            _ => Walk { rest, ..self },
        }
    }

    /// The next record or block, where one is left that is not refused.
    pub fn step(self) -> Option<Step<'a>>
        requires { IsWalk self }
        ensures steps { Steps self.entry result }
        ensures shorter { IfSome result (λ step. length step.behind.rest.now < length self.entry.rest.now) }
    {
        match part(self.rest, self.layout, &self.interfaces[..self.count]) {
            Ok(part) => Some(Step {
                content: part.content,
                behind: self.behind(part.content, part.size),
            }),
            Err(_) => None,
        }
    }
}
