// The sums of a unit and an endpoint.
ghost use Rattle.std.specs.Prelude.{◌≡◌, true, OnOk, IfErr};
ghost use Rattle.std.specs.Option.{option_to_list};
ghost use Rattle.air_source.specs.Causes.{HasAirCause};
ghost use Rattle.explain_heard.specs.Stops.{StopsInLine};
ghost use Rattle.why_lines.specs.Counting.{added, has_room, is_of, lines_at, no_sums, number_of, unit_lines, word_lines};

use crate::line_sums::LineSum;
use crate::words::SumWord;
use air_source::{AirFault, Side};
use explain_heard::LineSink;
use explain_model::ExplainLine;

/// The sums of a unit and of the endpoint with this id: a number for each word, at its place.
#[derive(Clone, Copy)]
pub(crate) struct UnitSums {
    pub(crate) side: Side,
    pub(crate) id: u16,
    pub(crate) numbers: [u64; 33],
}

impl UnitSums {
    /// Those of no line.
    pub(crate) fn new(side: Side, id: u16) -> UnitSums
        ensures { result ≡ no_sums side id }
    {
        UnitSums {
            side,
            id,
            numbers: [0; 33],
        }
    }

    /// The number for a word.
    fn number(&self, word: SumWord) -> u64
        ensures { result ≡ number_of self.now word }
    {
        self.numbers[word.place()]
    }

    /// Whether what a line adds is of this unit and endpoint.
    fn is_of(&self, more: &LineSum) -> bool
        ensures { result ≡ is_of self.now more.now }
    {
        more.side == self.side && more.id == self.id
    }

    /// Whether the number with what a line adds is one of 64 bits.
    pub(crate) fn has_room(&self, more: &LineSum) -> bool
        ensures { result ≡ has_room more.now self.now }
    {
        !self.is_of(more) || self.number(more.word) <= u64::MAX - u64::from(more.number)
    }

    /// These with what a line adds, where it is of this unit and endpoint.
    pub(crate) fn with(&self, more: &LineSum) -> UnitSums
        requires { has_room more.now self.now ≡ true }
        ensures { result ≡ added more.now self.now }
    {
        let mut sums = *self;
        sums.add(more);
        sums
    }

    /// Adds what a line adds, where it is of this unit and endpoint.
    fn add(&mut self, more: &LineSum)
        requires { has_room more.now self.old ≡ true }
        ensures { self.new ≡ added more.now self.old }
    {
        if self.is_of(more) {
            self.numbers[more.word.place()] += u64::from(more.number);
        }
    }

    /// The line of a word, if its number is not 0.
    fn line(&self, word: SumWord) -> Option<ExplainLine>
        ensures { option_to_list result ≡ word_lines self.now word }
    {
        let number = self.number(word);
        if number == 0 {
            return None;
        }
        let (side, id) = (self.side, self.id);
        Some(match word {
            SumWord::Shown => ExplainLine::ShownCells {
                side,
                id,
                cells: number,
            },
            SumWord::Missing(word) => ExplainLine::MissingCells {
                side,
                id,
                word,
                cells: number,
            },
            SumWord::Silent(word) => ExplainLine::SilentPrbs {
                side,
                id,
                word,
                prbs: number,
            },
        })
    }

    /// Tells the line of a word, if its number is not 0.
    fn tell_word<W: LineSink>(&self, word: SumWord, out: &mut W) -> Result<(), AirFault>
        ensures heard { OnOk result (W.grew out.old (word_lines self.now word) out.new) }
        ensures stop { IfErr result (λ f. StopsInLine W.grew (W.stopped f) (word_lines self.now word) out.old out.new) }
        ensures same { W.same out.old out.new }
        ensures cause { HasAirCause (W.faults out.old) (W.faults out.new) result }
    {
        match self.line(word) {
            Some(line) => out.put(&line),
            None => Ok(()),
        }
    }

    /// Tells the lines of all words.
    fn tell<W: LineSink>(&self, out: &mut W) -> Result<(), AirFault>
        ensures heard { OnOk result (W.grew out.old (unit_lines self.now) out.new) }
        ensures stop { IfErr result (λ f. StopsInLine W.grew (W.stopped f) (unit_lines self.now) out.old out.new) }
        ensures same { W.same out.old out.new }
        ensures cause { HasAirCause (W.faults out.old) (W.faults out.new) result }
    {
        for word in SumWord::told() {
            self.tell_word(word, out)?;
        }
        Ok(())
    }

    /// Tells the lines of all words, where the sums are of this unit.
    pub(crate) fn tell_at<W: LineSink>(&self, side: Side, out: &mut W) -> Result<(), AirFault>
        ensures heard { OnOk result (W.grew out.old (lines_at side self.now) out.new) }
        ensures stop { IfErr result (λ f. StopsInLine W.grew (W.stopped f) (lines_at side self.now) out.old out.new) }
        ensures same { W.same out.old out.new }
        ensures cause { HasAirCause (W.faults out.old) (W.faults out.new) result }
    {
        if self.side == side {
            self.tell(out)
        } else {
            Ok(())
        }
    }
}
