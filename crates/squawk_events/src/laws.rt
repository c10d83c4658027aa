//! Laws, for proofs: functions that do nothing, whose contract is the law.
ghost use Rattle.std.specs.Prelude.{◌≡◌, ◌+◌, ◌^◌, ◌↔◌, IsTrue};
ghost use Rattle.squawk_events.specs.Limit.{limit};

use crate::{FrontError, LIMIT};

/// Two errors are equal exactly if they are the same variant.
pub fn front_errors_are_equal_if_same()
    ensures { (a b : FrontError) → IsTrue (⟦<FrontError as PartialEq>⟧.eq a b) ↔ (a ≡ b) }
{}

/// `LIMIT` is the largest `u32`.
pub fn limit_is_the_largest_offset()
    ensures code { LIMIT ≡ limit }
    ensures number { limit + 1 ≡ 2 ^ 32 }
{}
