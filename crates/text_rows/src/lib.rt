#![tactic(auto)]
//! Worked runs that their texts determine: what it is to be typed, and to be determined by a text, is met.

ghost use Rattle.run_text.specs.Derived.{IsDerived};
ghost use Rattle.text_laws.specs.Typed.{IsTyped};
ghost use Rattle.text_rows.specs.Outsized.{outsized};
ghost use Rattle.definition_rows.specs.RootRuns.{smallest, one_handle};
ghost use Rattle.definition_rows.specs.LaneRuns.{hand_over};

use definition_rows::lane_runs::hand_over_run;
use definition_rows::orders::{one_lane_in_order, two_lanes_in_order};
use definition_rows::runs::{one_handle_run, smallest_run};
use text_laws::legal_runs_are_determined;

/// The smallest worked run, one root from its birth to its end, is the one that its text determines.
pub fn smallest_is_derived()
    ensures typed { IsTyped smallest }
    ensures derived { IsDerived smallest }
{
    smallest_run();
    one_lane_in_order();
    legal_runs_are_determined();
}

/// So is the one of one handle, whose region is used a second time when it comes out of the cache.
pub fn one_handle_is_derived()
    ensures typed { IsTyped one_handle }
    ensures derived { IsDerived one_handle }
{
    one_handle_run();
    one_lane_in_order();
    legal_runs_are_determined();
}

/// And the one of two lanes, of which one releases the root that the other sends.
pub fn hand_over_is_derived()
    ensures typed { IsTyped hand_over }
    ensures derived { IsDerived hand_over }
{
    hand_over_run();
    two_lanes_in_order();
    legal_runs_are_determined();
}

/// A run with a number that is beyond its type is not typed.
pub fn a_large_number_is_not_typed()
    ensures untyped { IsTyped outsized → ⊥ }
{}
