//! In which order places are told of a value does not decide what is known.
#![tactic(auto)]

ghost use Rattle.std.specs.Prelude.{List};
ghost use Rattle.abstract_state.specs.Situation.{Situation};
ghost use Rattle.value_marks.specs.Marking.{Marking};
ghost use Rattle.value_marks.specs.Telling.{Teller, all_hear};
ghost use Rattle.telling_order.specs.Orders.{Place, hear, by_rising_numbers, IsReordering, AreAlike};

/// A value tells all places of its origin the same in whatever order they are told: nothing to run.
pub fn any_order_tells_alike()
    ensures { (t : Teller) (w : Marking) (s : Situation) (order : List Place) → IsReordering by_rising_numbers order
        → AreAlike (all_hear t w s) (hear t w order s) }
{}
