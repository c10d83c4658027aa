//! Laws, for proofs: functions that do nothing, whose contract is the law.
ghost use Rattle.std.specs.Prelude.{◌≡◌, ◌↔◌, IsTrue};

use crate::RunError;

/// Two errors are equal exactly if they are the same.
pub fn run_errors_are_equal_if_same()
    ensures { (a b : RunError) → IsTrue (⟦<RunError as PartialEq>⟧.eq a b) ↔ (a ≡ b) }
{}
