// The relations of a delay profile without which nothing can be in time.
ghost use Rattle.std.specs.Prelude.{◌≡◌, ◌≤◌, ◌↔◌, length, IsOk, IfErr, OnOk, OnErr, IsTrue, IsFalse};
ghost use Rattle.window_config.specs.Limits.{IsWithinLimits};
ghost use Rattle.window_config.specs.Relations.{name_of, left_of, right_of, compares, holds, failing_of, checked, PassesCheck, IsFirstFailing};

use crate::delays::Delays;
use thiserror::Error;

/// A relation of the check.
#[derive(Clone, Copy, Debug, PartialEq, Eq)]
pub enum Relation {
    /// The earliest data of the DU do not reach the RU too early.
    UpMax,
    /// The latest data of the DU do not reach the RU too late.
    UpMin,
    /// The earliest uplink command of the DU does not reach the RU too early.
    CpUlMax,
    /// The latest uplink command of the DU does not reach the RU too late.
    CpUlMin,
    /// The earliest data of the RU do not reach the DU too early.
    Ta4Min,
    /// The latest data of the RU do not reach the DU too late.
    Ta4Max,
    /// The RU takes in all fragments of one message.
    HoldDl,
    /// The DU takes in all fragments of one message.
    HoldUl,
}

/// A relation that fails, and its two sides in nanoseconds.
#[derive(Clone, Copy, Debug, PartialEq, Eq, Error)]
#[error("the delays do not fit: {left} against {right} ns")]
pub struct Failing {
    pub relation: Relation,
    pub left: i64,
    pub right: i64,
}

impl Relation {
    /// The name under which the relation is printed.
    pub fn name(self) -> &'static str
        ensures name { result.now ≡ name_of self }
        ensures short { length result.now ≤ 9 }
    {
        match self {
            Relation::UpMax => "up-max",
            Relation::UpMin => "up-min",
            Relation::CpUlMax => "cp-ul-max",
            Relation::CpUlMin => "cp-ul-min",
            Relation::Ta4Min => "ta4-min",
            Relation::Ta4Max => "ta4-max",
            Relation::HoldDl => "hold-dl",
            Relation::HoldUl => "hold-ul",
        }
    }
}

// the side of the relation that is configured
fn left(relation: Relation, d: &Delays) -> i64
    ensures { result ≡ left_of relation d.now }
{
    match relation {
        Relation::UpMax => d.t1a_up.max,
        Relation::UpMin => d.t1a_up.min,
        Relation::CpUlMax => d.t1a_cp_ul.max,
        Relation::CpUlMin => d.t1a_cp_ul.min,
        Relation::Ta4Min => d.ta4.min,
        Relation::Ta4Max => d.ta4.max,
        Relation::HoldDl => d.hold_dl,
        Relation::HoldUl => d.hold_ul,
    }
}

// the side of the relation that follows from the rest of the profile
fn right(relation: Relation, d: &Delays) -> i64
    requires { IsWithinLimits d.now }
    ensures { result ≡ right_of relation d.now }
{
    match relation {
        Relation::UpMax => d.t2a_up.max + d.t12.min,
        Relation::UpMin => d.t2a_up.min + d.t12.max,
        Relation::CpUlMax => d.t2a_cp_ul.max + d.t12.min,
        Relation::CpUlMin => d.t2a_cp_ul.min + d.t12.max,
        Relation::Ta4Min => d.ta3.min + d.t34.min,
        Relation::Ta4Max => d.ta3.max + d.t34.max,
        Relation::HoldDl => (d.t1a_up.max - d.t1a_up.min) + (d.t12.max - d.t12.min),
        Relation::HoldUl => (d.ta3.max - d.ta3.min) + (d.t34.max - d.t34.min),
    }
}

// whether the relation holds of two sides
fn compares(relation: Relation, left: i64, right: i64) -> bool
    ensures { result ≡ compares relation left right }
{
    match relation {
        Relation::UpMax | Relation::CpUlMax | Relation::Ta4Min => left <= right,
        Relation::UpMin
        | Relation::CpUlMin
        | Relation::Ta4Max
        | Relation::HoldDl
        | Relation::HoldUl => right <= left,
    }
}

// an error where the relation fails
fn tested(relation: Relation, d: &Delays) -> Result<(), Failing>
    requires { IsWithinLimits d.now }
    ensures holds { OnOk result (IsTrue (holds relation d.now)) }
    ensures fails { OnErr result (IsFalse (holds relation d.now)) }
    ensures sides { IfErr result (λ f. f ≡ failing_of relation d.now) }
{
    let left = left(relation, d);
    let right = right(relation, d);
    if compares(relation, left, right) {
        Ok(())
    } else {
        Err(Failing {
            relation,
            left,
            right,
        })
    }
}

// the first relation that fails
fn tested_in_order(d: &Delays) -> Result<(), Failing>
    requires { IsWithinLimits d.now }
    ensures { result ≡ checked d.now }
{
    tested(Relation::UpMax, d)?;
    tested(Relation::UpMin, d)?;
    tested(Relation::CpUlMax, d)?;
    tested(Relation::CpUlMin, d)?;
    tested(Relation::Ta4Min, d)?;
    tested(Relation::Ta4Max, d)?;
    tested(Relation::HoldDl, d)?;
    tested(Relation::HoldUl, d)
}

/// Whether frames that are sent in their windows always arrive in theirs, within the bounds of the network, and whether one
/// generation holds all fragments of a message.
///
/// An error exactly where one of the eight relations fails: the first of them, in the order of [`Relation`], with its sides.
pub fn check(d: &Delays) -> Result<(), Failing>
    requires { IsWithinLimits d.now }
    ensures value { result ≡ checked d.now }
    ensures passes { IsOk result ↔ PassesCheck d.now }
    ensures first { IfErr result (IsFirstFailing d.now) }
{
    tested_in_order(d)
}
