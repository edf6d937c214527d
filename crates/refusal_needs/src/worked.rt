//! What is wanted in a worked case.
ghost use Rattle.std.specs.Prelude.{◌≡◌, false, Some, codes, option_map};
ghost use Rattle.abstract_state.specs.declared.refusal.Refusal.TheVariants.{TextBounds};
ghost use Rattle.refusal_needs.specs.Wanted.{is_known, wanted_text};
ghost use Rattle.refusal_needs.specs.Refused.{refused_for};
ghost use Rattle.refusal_needs.specs.Worked.{behind_the_test, two_bytes};

/// What is printed of the filter that loads two bytes, and that it isn't known.
pub fn needs_are_worked()
    ensures text { option_map (wanted_text behind_the_test) (refused_for behind_the_test two_bytes TextBounds)
        ≡ Some (codes "r2 + 2 <= text end") }
    ensures unknown { option_map (is_known behind_the_test) (refused_for behind_the_test two_bytes TextBounds)
        ≡ Some false }
{}
