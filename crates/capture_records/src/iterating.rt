// The iterator over the records of a capture.
ghost use Rattle.std.specs.Prelude.{IsTrue};
ghost use Rattle.capture_records.specs.Reading.{all_pass};

use crate::layout::HEAD;
use crate::reading::record_at;
use crate::values::Record;

/// The records of a capture that passed [`check`](crate::check), in order.
#[derive(Clone, Copy)]
pub struct Records<'a> {
    pub(crate) rest: &'a [u8],
    ghost passes: { IsTrue (all_pass rest.now) },
}

impl<'a> Iterator for Records<'a> {
    ghost use Rattle.std.specs.Iterator.{YieldsFirstBy, item_count};
    ghost use Rattle.capture_records.specs.Left.{left_of};
    ghost use Rattle.capture_records.specs.Records.{arrived_of};

    type Item = Record<'a>;

    ghost next_gives = { YieldsFirstBy arrived_of left_of };

    ghost remaining = { item_count left_of };

    fn next(&mut self) -> Option<Record<'a>> {
        if self.rest.is_empty() {
            return None;
        }
        let record = record_at(self.rest);
        self.rest = &self.rest[HEAD + record.frame.len()..];
        Some(record)
    }
}
