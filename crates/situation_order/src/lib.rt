//! That of what a register holds no less is known than of what another does, and that operations keep that order.
#![tactic(auto)]

ghost use Rattle.span_context.specs.declared.profile.Profile.TheVariants.{Two, Three};
ghost use Rattle.bpf_words.specs.declared.instruction.Arithmetic.{Arithmetic};
ghost use Rattle.bpf_words.specs.declared.instruction.Width.{Width};
ghost use Rattle.abstract_state.specs.Addresses.{Content, computed, moved};
ghost use Rattle.situation_order.specs.Order.{IsContentWithin, IsAnswerWithin};

/// Of what an operation makes of two contents context 3 knows no less than context 2, and refuses no more, where it
/// knows no less of both: nothing to run.
pub fn operations_are_ordered()
    ensures computed { (operation : Arithmetic) (width : Width) (a b x y : Content) → IsContentWithin a x
        → IsContentWithin b y
        → IsAnswerWithin IsContentWithin (computed Three operation width a b) (computed Two operation width x y) }
    ensures moved { (width : Width) (a x : Content) → IsContentWithin a x
        → IsAnswerWithin IsContentWithin (moved width a) (moved width x) }
{}
