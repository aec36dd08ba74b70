// The greatest windows that fit.
ghost use Rattle.std.specs.Prelude.{◌≡◌, ◌≢◌, IfOk, IfErr};
ghost use Rattle.window_config.specs.declared.delays.Range.{Range};
ghost use Rattle.window_config.specs.Limits.{IsRange, IsWithinLimits};
ghost use Rattle.window_config.specs.Relations.{PassesCheck};
ghost use Rattle.window_plan.specs.Fitting.{t1a_for, ta4_for, hold_for, sent_within, heard_within, fitted};
ghost use Rattle.window_plan.specs.Ranges.{IsInside, Meets, KeepsRest};

use crate::refusals::{NoFit, Window};
use window_config::{Delays, MOST_DELAY, Range};

// how long two frames of one message can arrive apart
pub(crate) fn hold_for(sent: Range, delay: Range) -> i64
    requires sent { IsRange 0 sent }
    requires delay { IsRange 0 delay }
    ensures { result ≡ hold_for sent delay }
{
    (sent.max - sent.min) + (delay.max - delay.min)
}

// the greatest T1a that T2a and T12 let be
fn t1a_for(t2a: Range, t12: Range) -> Range
    requires t2a { IsRange 1 t2a }
    requires t12 { IsRange 0 t12 }
    ensures { result ≡ t1a_for t2a t12 }
{
    Range {
        min: t2a.min + t12.max,
        max: (t2a.max + t12.min).min(MOST_DELAY as i64),
    }
}

// the greatest window in which the DU may send, or why there is none
fn sent_within(window: Window, t2a: Range, t12: Range) -> Result<Range, NoFit>
    requires t2a { IsRange 1 t2a }
    requires t12 { IsRange 0 t12 }
    ensures value { result ≡ sent_within window t2a t12 }
    ensures range { IfOk result (IsRange 0) }
{
    let t1a = t1a_for(t2a, t12);
    if t1a.max < t1a.min {
        Err(NoFit {
            window,
            left: t1a.min,
            right: t1a.max,
        })
    } else {
        Ok(t1a)
    }
}

// the least window in which the DU hears all, or why there is none
fn heard_within(ta3: Range, t34: Range) -> Result<Range, NoFit>
    requires ta3 { IsRange 0 ta3 }
    requires t34 { IsRange 0 t34 }
    ensures value { result ≡ heard_within ta3 t34 }
{
    let min = ta3.min + t34.min;
    let max = ta3.max + t34.max;
    if (MOST_DELAY as i64) < max {
        Err(NoFit {
            window: Window::Ta4,
            left: max,
            right: MOST_DELAY as i64,
        })
    } else {
        Ok(Range { min, max })
    }
}

// the fitted profile, or the first window that does not fit
fn fitted_in_order(d: &Delays) -> Result<Delays, NoFit>
    requires { IsWithinLimits d.now }
    ensures { result ≡ fitted d.now }
{
    let t1a_up = sent_within(Window::Up, d.t2a_up, d.t12)?;
    let t1a_cp_ul = sent_within(Window::CpUl, d.t2a_cp_ul, d.t12)?;
    let ta4 = heard_within(d.ta3, d.t34)?;
    Ok(Delays {
        t1a_up,
        t1a_cp_ul,
        ta4,
        hold_dl: hold_for(t1a_up, d.t12),
        hold_ul: hold_for(d.ta3, d.t34),
        ..*d
    })
}

/// The profile with the greatest windows that fit: T1a is as wide as T2a and T12 let it be, and Ta4 and the two holds are the
/// least that take in all that is sent in T1a and Ta3. The other times stay.
///
/// # Errors
///
/// The first window, in the order of [`Window`], that no range within the limits fits. A hold always fits once T1a and Ta4 do.
pub fn fit(d: &Delays) -> Result<Delays, NoFit>
    requires { IsWithinLimits d.now }
    ensures value { result ≡ fitted d.now }
    ensures kept { IfOk result (KeepsRest d.now) }
    ensures limits { IfOk result IsWithinLimits }
    ensures passes { IfOk result PassesCheck }

    // A range within the limits that meets the window's own two relations lies inside the fitted T1a, and contains the fitted Ta4.
    ensures greatest_up { (r : Range) → IsRange 0 r → Meets Window.Up d.now r → IfOk result (λ f. IsInside r f.t1a_up) }
    ensures greatest_cp_ul { (r : Range) → IsRange 0 r → Meets Window.CpUl d.now r → IfOk result (λ f. IsInside r f.t1a_cp_ul) }
    ensures least_ta4 { (r : Range) → IsRange 0 r → Meets Window.Ta4 d.now r → IfOk result (λ f. IsInside f.ta4 r) }

    // No range within the limits meets the relations of the window that is refused.
    ensures refused { IfErr result (λ e. (r : Range) → IsRange 0 r → Meets e.window d.now r → ⊥) }
    ensures holds_fit { IfErr result (λ e. (e.window ≢ Window.HoldDl) × (e.window ≢ Window.HoldUl)) }
{
    fitted_in_order(d)
}
