// How many frames were sent.
ghost use Rattle.std.specs.Prelude.{◌≡◌, ◌≢◌, ◌+◌, ◌<◌, ◌^◌};
ghost use Rattle.fh_document.specs.declared.delivered.TrafficClass.TheVariants.{M};
ghost use Rattle.document_texts.specs.Told.{HasCounted};

use fh_document::TrafficClass;

/// How many frames of the classes c and u were sent.
#[derive(Clone, Copy)]
pub(crate) struct Tally {
    pub(crate) commands: u64,
    pub(crate) fragments: u64,
}

impl Tally {
    /// Counts a frame of the class c or u, and answers its number in the class, from 1.
    pub(crate) fn count(&mut self, class: TrafficClass) -> u64
        requires class { class ≢ M }
        requires room { self.old.commands + self.old.fragments < 2 ^ 40 }
        ensures number { HasCounted class self.old self.new result }
        ensures more { self.new.commands + self.new.fragments ≡ self.old.commands + self.old.fragments + 1 }
    {
        match class {
            TrafficClass::C => {
                self.commands += 1;
                self.commands
            }
            TrafficClass::U => {
                self.fragments += 1;
                self.fragments
            }
            TrafficClass::M => unreachable!(),
        }
    }
}
