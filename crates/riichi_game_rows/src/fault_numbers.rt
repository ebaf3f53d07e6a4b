//! Faults as numbers, of which 0 is none.
ghost use Rattle.std.specs.Prelude.{◌≡◌};
ghost use Rattle.riichi_game_rows.specs.FaultNumbers as spec;

use riichi_table::{OutcomeFault, RulesFault};

/// Why a row of an outcome is refused.
#[derive(Clone, Copy, Debug, PartialEq, Eq)]
pub enum RowFault {
    /// A number of it says nothing.
    SaysNothing,
    /// The outcome is refused.
    Refused(OutcomeFault),
}

/// The number of a fault of rules, from 1 on in the order of their names; 0 of none.
pub fn rules_fault_number(fault: Option<RulesFault>) -> u32
    ensures { result ≡ spec.rules_fault_number fault }
{
    match fault {
        None => 0,
        Some(fault) => fault as u32 + 1,
    }
}

/// The number of a fault of an outcome, from 1 on in the order of their names.
fn outcome_fault_number(fault: OutcomeFault) -> u32
    ensures { result ≡ spec.outcome_fault_number fault }
{
    fault as u32 + 1
}

/// The number of a fault of a row: 202 of one that says nothing; 0 of none.
pub fn row_fault_number(fault: Option<RowFault>) -> u32
    ensures { result ≡ spec.row_fault_number fault }
{
    match fault {
        None => 0,
        Some(RowFault::SaysNothing) => 202,
        Some(RowFault::Refused(fault)) => outcome_fault_number(fault),
    }
}
