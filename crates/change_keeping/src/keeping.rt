use std::marker::Brand;

/// At which size the hub `N`'s changes are kept, and what keeps their texts. A program picks it once for each hub.
pub trait Keeping {
    ghost use Rattle.change_keeping.specs.Kept.{Kept};

    ghost kept: { Kept };
}

impl Keeping for Brand {
    ghost use Rattle.change_ops.specs.declared.size.Size.TheVariants.{Small};
    ghost use Rattle.change_keeping.specs.Kept.{none_kept};

    ghost kept = { none_kept Small };
}
