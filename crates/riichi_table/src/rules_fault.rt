//! Which rules no table may choose.
ghost use Rattle.std.specs.Prelude.{◌≡◌};
ghost use Rattle.riichi_table.specs.RulesFaults as spec;

use crate::rules::{ByPlace, TableRules};
use crate::sums::sum_of_four;

/// Why rules are refused.
#[derive(Clone, Copy, Debug, PartialEq, Eq)]
pub enum RulesFault {
    /// A number of points is over 1000000, or is no whole hundreds.
    Points,
    /// The start is below 100.
    Start,
    /// The return is below the start.
    Return,
    /// A bonus of the uma is no whole thousands, or is over 1000000 up or down.
    UmaStep,
    /// A place has a greater bonus than the one before it.
    UmaOrder,
    /// The four bonuses don't add up to 0.
    UmaSum,
}

impl TableRules {
    /// Why these rules are refused, or nothing: the first of the faults in the order of their names.
    pub fn fault(&self) -> Option<RulesFault>
        ensures { result ≡ spec.rules_fault self.now }
    {
        if !has_points(self) {
            Some(RulesFault::Points)
        } else if self.start < 100 {
            Some(RulesFault::Start)
        } else if self.returns < self.start {
            Some(RulesFault::Return)
        } else {
            uma_fault(&self.uma)
        }
    }
}

#[tactic(auto, unfolding(crate::specs::RulesFaults::has_points))]
fn has_points(rules: &TableRules) -> bool
    ensures { result ≡ spec.has_points rules.now }
{
    is_points(rules.start)
        && is_points(rules.returns)
        && is_points(rules.extra.unwrap_or(0))
        && is_points(rules.chombo.penalty())
}

#[tactic(auto, unfolding(crate::specs::RulesFaults::is_points))]
fn is_points(points: u32) -> bool
    ensures { result ≡ spec.is_points points }
{
    points <= 1_000_000 && points % 100 == 0
}

#[tactic(auto, unfolding(crate::specs::RulesFaults::uma_fault))]
fn uma_fault(uma: &ByPlace<i32>) -> Option<RulesFault>
    ensures { result ≡ spec.uma_fault uma.now }
{
    if !has_steps(uma) {
        Some(RulesFault::UmaStep)
    } else if rises(uma) {
        Some(RulesFault::UmaOrder)
    } else if uma_sum(uma) != 0 {
        Some(RulesFault::UmaSum)
    } else {
        None
    }
}

#[tactic(auto, unfolding(crate::specs::RulesFaults::rises))]
fn rises(uma: &ByPlace<i32>) -> bool
    ensures { result ≡ spec.rises uma.now }
{
    uma.first < uma.second || uma.second < uma.third || uma.third < uma.fourth
}

#[tactic(auto, unfolding(crate::specs::RulesFaults::uma_sum))]
fn uma_sum(uma: &ByPlace<i32>) -> i64
    ensures { result ≡ spec.uma_sum uma.now }
{
    sum_of_four(uma.first, uma.second, uma.third, uma.fourth)
}

#[tactic(auto, unfolding(crate::specs::RulesFaults::has_steps))]
fn has_steps(uma: &ByPlace<i32>) -> bool
    ensures { result ≡ spec.has_steps uma.now }
{
    is_step(uma.first) && is_step(uma.second) && is_step(uma.third) && is_step(uma.fourth)
}

#[tactic(auto, unfolding(crate::specs::RulesFaults::is_step))]
fn is_step(bonus: i32) -> bool
    ensures { result ≡ spec.is_step bonus }
{
    bonus.unsigned_abs() <= 1_000_000 && bonus.unsigned_abs() % 1000 == 0
}
