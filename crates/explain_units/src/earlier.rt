// What lines say of earlier judgements.
ghost use Rattle.std.specs.Prelude.{◌≡◌, IfOk, OnOk};
ghost use Rattle.explain_model.specs.Margins.{control_class, data_class_of, dated_by, way_of};
ghost use Rattle.explain_model.specs.declared.values.MarginClass.TheVariants.{Data as OfData};
ghost use Rattle.explain_units.specs.Fit.{IsFit, IsWithin};
ghost use Rattle.explain_units.specs.Known.{add_all, clash_with};
ghost use Rattle.unit_model.specs.Commands.{with_accepted};

use crate::blocks::Blocks;
use crate::claims::Claims;
use crate::given::{fresh_by, keep_given};
use crate::kept_margins::{EndpointMargins, Margins, control_class, data_class};
use air_source::AirCell;
use explain_heard::{
    CommandJudged, DataJudged, Judged, control_line, data_line, fragment_line, message_line,
    whole_line,
};
use explain_model::{Clash, ExplainLine, MarginClass};
use fh_base::NoMemory;
use std::alloc::Global;
use unit_model::CommandVerdict;
use window_config::Config;

// What a section of a command overlaps.
fn clash_by(claims: &Claims, command: &CommandJudged) -> Option<Clash>
    requires { IsWithin command.now.verdict command.now.allocation }
    ensures { result ≡ clash_with command.now.verdict claims.now command.now.allocation }
{
    match command.verdict {
        CommandVerdict::Overlap => claims.clash(&command.allocation),
        CommandVerdict::Mismatch
        | CommandVerdict::Late
        | CommandVerdict::Early
        | CommandVerdict::Range
        | CommandVerdict::Repeat
        | CommandVerdict::Full
        | CommandVerdict::Accepted => None,
    }
}

// Keeps a section of a command, where it is accepted.
fn keep_accepted(claims: &mut Claims, command: &CommandJudged) -> Result<(), NoMemory>
    ensures { OnOk result (claims.new ≡ with_accepted command.now.verdict command.now.allocation claims.old) }
{
    match command.verdict {
        CommandVerdict::Accepted => claims.push(command.allocation),
        CommandVerdict::Mismatch
        | CommandVerdict::Late
        | CommandVerdict::Early
        | CommandVerdict::Range
        | CommandVerdict::Repeat
        | CommandVerdict::Overlap
        | CommandVerdict::Full => Ok(()),
    }
}

// The class of margins of a section of a command.
fn way_of(down: bool) -> MarginClass
    ensures { result ≡ way_of down }
{
    if down {
        MarginClass::Down
    } else {
        MarginClass::Up
    }
}

// Adds a section of a command to the margins.
fn add_command(margins: &mut Margins, command: &CommandJudged) -> Result<(), NoMemory>
    ensures { OnOk result (margins.new.all.items ≡ add_all command.now.allocation.ep (dated_by (way_of command.now.allocation.down) command.now.allocation.endpoint.id (control_class command.now.verdict) command.now.timing) margins.old.all.items) }
{
    match control_class(command.verdict) {
        Some(class) => margins.add(
            command.allocation.ep,
            way_of(command.allocation.down),
            class,
            command.timing,
        ),
        None => Ok(()),
    }
}

// Adds a section of data to the margins.
fn add_data(margins: &mut Margins, section: &DataJudged) -> Result<(), NoMemory>
    ensures { OnOk result (margins.new.all.items ≡ add_all section.now.ep (dated_by OfData section.now.id (Some (data_class_of section.now.verdict)) section.now.timing) margins.old.all.items) }
{
    margins.add(
        section.ep,
        MarginClass::Data,
        data_class(section.verdict),
        section.timing,
    )
}

/// What lines say of the earlier judgements of a unit, and its margins.
#[derive(Drop)]
pub(crate) struct Earlier {
    /// The byte of its frame where the header of the last message begins.
    place: usize,
    blocks: Blocks,
    claims: Claims,
    margins: Margins,
}

impl Earlier {
    ghost use Rattle.std.specs.Prelude.{◌≡◌, [], IfOk, OnOk};
    ghost use Rattle.explain_units.specs.Blocks.{giver_of};
    ghost use Rattle.explain_units.specs.Knowing.{known_of};
    ghost use Rattle.explain_units.specs.Known.{nothing_known, said, with_command, with_data, with_judged};

    /// Nothing was judged.
    pub(crate) fn make(alloc: Global, config: &Config) -> Result<Earlier, NoMemory>
        ensures { IfOk result (λ e. known_of e ≡ nothing_known config.now) }
    {
        let blocks = Blocks::make(alloc)?;
        let claims = Claims::make(alloc)?;
        let margins = Margins::make(alloc, config)?;
        Ok(Earlier {
            place: 0,
            blocks,
            claims,
            margins,
        })
    }

    /// The line of what was judged of a part of the arrival with this number, if it has one.
    pub(crate) fn line_of(&self, number: u32, judged: &Judged) -> Option<ExplainLine>
        requires { IsFit judged.now }
        ensures { result ≡ said number (known_of self.now) judged.now }
    {
        match judged {
            Judged::Message(m) => message_line(number, m),
            Judged::Command(command) => {
                let clash = clash_by(&self.claims, command);
                Some(ExplainLine::Control(control_line(number, command, clash)))
            }
            Judged::Fragment(f) => Some(fragment_line(number, self.place, f)),
            Judged::Whole(w) => Some(ExplainLine::Whole(whole_line(number, w))),
            Judged::Data(section) => {
                let fresh = fresh_by(&self.blocks, number, section);
                Some(ExplainLine::Data(data_line(number, section, fresh)))
            }
        }
    }

    // Keeps a section of a command.
    fn keep_command(&mut self, command: &CommandJudged) -> Result<(), NoMemory>
        ensures { OnOk result (known_of self.new ≡ with_command command.now (known_of self.old)) }
    {
        keep_accepted(&mut self.claims, command)?;
        add_command(&mut self.margins, command)
    }

    // Keeps a section of data of the arrival with this number.
    fn keep_data(&mut self, number: u32, section: &DataJudged) -> Result<(), NoMemory>
        ensures { OnOk result (known_of self.new ≡ with_data number section.now (known_of self.old)) }
    {
        keep_given(&mut self.blocks, number, section)?;
        add_data(&mut self.margins, section)
    }

    /// Keeps what was judged of a part of the arrival with this number. After `NoMemory` what is kept says nothing.
    pub(crate) fn keep(&mut self, number: u32, judged: &Judged) -> Result<(), NoMemory>
        ensures { OnOk result (known_of self.new ≡ with_judged number judged.now (known_of self.old)) }
    {
        match judged {
            Judged::Message(m) => {
                self.place = m.place;
                Ok(())
            }
            Judged::Command(command) => self.keep_command(command),
            Judged::Data(section) => self.keep_data(number, section),
            Judged::Fragment(_) | Judged::Whole(_) => Ok(()),
        }
    }

    /// The first arrival that gave a block to a cell, 0 where none did.
    pub(crate) fn giver(&self, c: &AirCell) -> u32
        ensures { result ≡ giver_of self.now.blocks c.now.id c.now.slot c.now.symbol c.now.prb }
    {
        self.blocks.giver(c.id, &c.slot, c.symbol, c.prb)
    }

    /// The margins of the unit's endpoints, in their order.
    pub(crate) fn margins(&self) -> &[EndpointMargins]
        ensures { result.now ≡ self.now.margins.all.items }
    {
        self.margins.all.as_slice()
    }
}
