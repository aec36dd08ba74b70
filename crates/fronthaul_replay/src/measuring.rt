// Both units' meters.
ghost use Rattle.std.specs.Prelude.{◌≡◌, IfOk};
ghost use Rattle.document_traffic.specs.Settings.{compensation_of};
ghost use Rattle.fh_document.specs.Proper.{IsDocument};
ghost use Rattle.unit_model.specs.Radiated.{first_clock};
ghost use Rattle.fronthaul_replay.specs.Measuring.{MeasuresWait};

use air_source::Side;
use delay_measure::Compensation;
use fh_base::NoMemory;
use fh_document::Document;
use std::alloc::Global;
use unit_meters::Meters;

/// Meters for which all measurements of a document wait, with the compensations of its units.
pub(crate) fn meters_of(alloc: Global, doc: &Document) -> Result<Meters<'_>, NoMemory>
    requires { IsDocument doc.now }
    ensures { IfOk result (λ m. MeasuresWait doc.now first_clock m) }
{
    let ru = compensation_of(doc, Side::Ru);
    let du = compensation_of(doc, Side::Du);
    Meters::make(alloc, &doc.measures, ru, du)
}

/// A unit's compensation.
fn compensation_of(doc: &Document, side: Side) -> Compensation
    ensures { result ≡ compensation_of doc.now side }
{
    let comps = doc.comps;
    match side {
        Side::Ru => Compensation {
            sending: comps.ru_sending,
            receiving: comps.ru_receiving,
        },
        Side::Du => Compensation {
            sending: comps.du_sending,
            receiving: comps.du_receiving,
        },
    }
}
