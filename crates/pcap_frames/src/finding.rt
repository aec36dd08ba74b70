// From one frame that is wanted to the next.
use crate::walks::Walk;
use crate::wanted::Wanted;

/// A frame that is wanted, and what is left after it.
#[derive(Clone, Copy)]
pub struct Found<'a> {
    pub wanted: Wanted<'a>,
    pub behind: Walk<'a>,
}
