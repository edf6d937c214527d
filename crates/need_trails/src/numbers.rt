//! Numbers of 64 bits, where what is computed is one.
ghost use Rattle.std.specs.Prelude.{◌≡◌, ◌+ℤ◌, ◌-ℤ◌, neg_ℤ};
ghost use Rattle.refusal_needs.specs.Wanted.{in_i64};
ghost use Rattle.need_trails.specs.Origins.{moved};

#[tactic(auto, using(crate::proofs::Fits::signed_is))]
pub(crate) fn sum(a: i64, b: i64) -> Option<i64>
    ensures { result ≡ in_i64 (a +ℤ b) }
{
    a.checked_add(b)
}

#[tactic(auto, using(crate::proofs::Fits::signed_is))]
pub(crate) fn difference(a: i64, b: i64) -> Option<i64>
    ensures { result ≡ in_i64 (a -ℤ b) }
{
    a.checked_sub(b)
}

#[tactic(auto, using(crate::proofs::Fits::signed_is))]
pub(crate) fn opposite(a: i64) -> Option<i64>
    ensures { result ≡ in_i64 (neg_ℤ a) }
{
    a.checked_neg()
}

/// A number without sign, moved by one with sign.
#[tactic(auto, using(crate::proofs::Fits::number_is))]
pub(crate) fn moved(n: u64, by: i64) -> Option<u64>
    ensures { result ≡ moved n by }
{
    n.checked_add_signed(by)
}
