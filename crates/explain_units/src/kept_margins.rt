// How near to the ends of their windows the sections of each endpoint were received.
ghost use Rattle.std.specs.Prelude.{◌≡◌, map, IfOk, IfSome, OnOk, pos};
ghost use Rattle.std.specs.Int.{int_gap};
ghost use Rattle.explain_units.specs.Margins.{added_at, is_of_some, no_margins, with_one};
ghost use Rattle.explain_model.specs.Growing.{lesser, margin_by};
ghost use Rattle.explain_model.specs.Margins.{control_class, data_class_of};
ghost use Rattle.window_config.specs.declared.verdicts.Class.TheVariants.{OnTime, Late, Early};

use explain_model::{Margin, MarginClass, Timing};
use fh_base::NoMemory;
use std::alloc::Global;
use unit_model::{CommandVerdict, DataVerdict};
use window_config::{Class, Config};

/// The margins of an endpoint.
#[derive(Clone, Copy)]
pub struct EndpointMargins {
    pub id: u16,
    pub down: Margin,
    pub up: Margin,
    pub data: Margin,
}

/// The margin of no section.
const NO_MARGIN: Margin = Margin {
    ontime: 0,
    least: Timing { since: 0, until: 0 },
    late: 0,
    late_by: 0,
    early: 0,
    early_by: 0,
};

/// Whether it is of a section.
pub fn is_of_some(margin: &Margin) -> bool
    ensures { result ≡ is_of_some margin.now }
{
    margin.ontime != 0 || margin.late != 0 || margin.early != 0
}

/// The class of a section of a command by its verdict; a mismatch has none.
pub fn control_class(verdict: CommandVerdict) -> Option<Class>
    ensures { result ≡ control_class verdict }
{
    match verdict {
        CommandVerdict::Mismatch => None,
        CommandVerdict::Late => Some(Class::Late),
        CommandVerdict::Early => Some(Class::Early),
        CommandVerdict::Range
        | CommandVerdict::Repeat
        | CommandVerdict::Overlap
        | CommandVerdict::Full
        | CommandVerdict::Accepted => Some(Class::OnTime),
    }
}

/// The class of a section of data by its verdict.
pub fn data_class(verdict: DataVerdict) -> Class
    ensures { result ≡ data_class_of verdict }
{
    match verdict {
        DataVerdict::Late => Class::Late,
        DataVerdict::Early => Class::Early,
        DataVerdict::Repeat | DataVerdict::Taken => Class::OnTime,
    }
}

// How far a number is below 0.
fn below_zero(n: i64) -> u64
    ensures { result ≡ int_gap n (pos 0) }
{
    if n < 0 { n.unsigned_abs() } else { 0 }
}

// The lesser of the least of so many sections and that of one more.
fn lesser(ontime: u64, least: &Timing, timing: Timing) -> Timing
    ensures { result ≡ lesser ontime least.now timing }
{
    if ontime == 0 {
        return timing;
    }
    Timing {
        since: least.since.min(timing.since),
        until: least.until.min(timing.until),
    }
}

// The margin with one section more on time.
fn with_ontime(m: &Margin, timing: Timing) -> Option<Margin>
    ensures { IfSome result (λ n. n ≡ margin_by OnTime m.now timing) }
{
    let least = lesser(m.ontime, &m.least, timing);
    Some(Margin {
        ontime: m.ontime.checked_add(1)?,
        least,
        late: m.late,
        late_by: m.late_by,
        early: m.early,
        early_by: m.early_by,
    })
}

// With one more that is late.
fn with_late(m: &Margin, timing: Timing) -> Option<Margin>
    ensures { IfSome result (λ n. n ≡ margin_by Late m.now timing) }
{
    Some(Margin {
        ontime: m.ontime,
        least: m.least,
        late: m.late.checked_add(1)?,
        late_by: m.late_by.max(below_zero(timing.until)),
        early: m.early,
        early_by: m.early_by,
    })
}

// With one more that is early.
fn with_early(m: &Margin, timing: Timing) -> Option<Margin>
    ensures { IfSome result (λ n. n ≡ margin_by Early m.now timing) }
{
    Some(Margin {
        ontime: m.ontime,
        least: m.least,
        late: m.late,
        late_by: m.late_by,
        early: m.early.checked_add(1)?,
        early_by: m.early_by.max(below_zero(timing.since)),
    })
}

// The margin with one section more. None where a number would not fit.
fn with_section(m: &Margin, class: Class, timing: Timing) -> Option<Margin>
    ensures { IfSome result (λ n. n ≡ margin_by class m.now timing) }
{
    match class {
        Class::OnTime => with_ontime(m, timing),
        Class::Late => with_late(m, timing),
        Class::Early => with_early(m, timing),
    }
}

// The margins of an endpoint with one section more.
fn with_dated(
    m: &EndpointMargins,
    of: MarginClass,
    class: Class,
    timing: Timing,
) -> Option<EndpointMargins>
    ensures { IfSome result (λ n. n ≡ with_one of class timing m.now) }
{
    let mut new = *m;
    match of {
        MarginClass::Down => new.down = with_section(&m.down, class, timing)?,
        MarginClass::Up => new.up = with_section(&m.up, class, timing)?,
        MarginClass::Data => new.data = with_section(&m.data, class, timing)?,
    }
    Some(new)
}

/// The margins of a unit's endpoints, in their order.
#[derive(Drop)]
pub struct Margins {
    pub all: Vec<EndpointMargins>,
}

impl Margins {
    /// Those of no section.
    pub fn make(alloc: Global, config: &Config) -> Result<Margins, NoMemory>
        ensures { IfOk result (λ m. m.all.items ≡ map no_margins config.now.endpoints) }
    {
        let mut all = Vec::new(alloc);
        for endpoint in config.endpoints.as_slice() {
            all.push(EndpointMargins {
                id: endpoint.id,
                down: NO_MARGIN,
                up: NO_MARGIN,
                data: NO_MARGIN,
            })?;
        }
        Ok(Margins { all })
    }

    /// Adds a section of the endpoint with this index. `NoMemory` where a number would not fit.
    pub fn add(
        &mut self,
        ep: usize,
        of: MarginClass,
        class: Class,
        timing: Timing,
    ) -> Result<(), NoMemory>
        ensures { OnOk result (self.new.all.items ≡ added_at ep of class timing self.old.all.items) }
    {
        if ep >= self.all.len() {
            return Ok(());
        }
        match with_dated(&self.all[ep], of, class, timing) {
            Some(new) => {
                self.all[ep] = new;
                Ok(())
            }
            None => Err(NoMemory),
        }
    }
}
