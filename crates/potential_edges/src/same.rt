//! The same holder, and the same base.
ghost use Rattle.std.specs.Prelude.{◌≡◌};
ghost use Rattle.potential_edges.specs.Same.{is_holder, is_base};

use label_potentials::potential::{Base, Holder};

/// Whether two holders are the same.
pub(crate) fn is_holder(one: Holder, other: Holder) -> bool
    ensures { result ≡ is_holder one other }
{
    match (one, other) {
        (Holder::Register(one), Holder::Register(other)) => one == other,
        (Holder::StackSlot(one), Holder::StackSlot(other)) => one == other,
        _ => false,
    }
}

/// Whether two bases are the same.
pub(crate) fn is_base(one: Base, other: Base) -> bool
    ensures { result ≡ is_base one other }
{
    match (one, other) {
        (Base::Zero, Base::Zero) => true,
        (Base::Text, Base::Text) => true,
        (Base::Link, Base::Link) => true,
        _ => false,
    }
}
