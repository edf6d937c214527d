//! What the rules give: nothing to run.
ghost use Rattle.semantics.specs.State.{State};
ghost use Rattle.abstract_state.specs.declared.region.Region.{Region as TheRegion};
ghost use Rattle.abstract_state.specs.Lent.{Lengths};
ghost use Rattle.value_marks.specs.Bearing.{Bears};
ghost use Rattle.value_marks.specs.Marking.{Marking, no_marks};
ghost use Rattle.length_marks.specs.Names.{BearsIn};
ghost use Rattle.length_marks.specs.Laws.{SharesName, SumsTurn, CountsDown};

/// Marks that are true by the lengths of a run are true. Where no place bears one, they are.
pub fn lengths_name_values()
    ensures bears { (lengths : Lengths) (w : Marking) (s : State) → BearsIn lengths w s → Bears w s }
    ensures start { (lengths : Lengths) (s : State) → BearsIn lengths no_marks s }
{}

/// Lengths and ends bear one name, a sum bears the mark of either side, and a counter keeps its own.
pub fn differences_are_kept()
    ensures ends { (region : TheRegion) → SharesName region }
    ensures sums { SumsTurn }
    ensures counters { CountsDown }
{}
