//! Numbers of 64 bits with sign, where what is computed is one.
ghost use Rattle.std.specs.Prelude.{◌≡◌, ◌<◌, ◌^◌, pos, ◌+ℤ◌, neg_ℤ};
ghost use Rattle.refusal_needs.specs.Wanted.{in_i64, moved};

#[tactic(auto, using(crate::proofs::Fits::ok_is))]
pub(crate) fn signed(n: u64) -> Option<i64>
    ensures { result ≡ in_i64 (pos n) }
{
    i64::try_from(n).ok()
}

pub(crate) fn small(n: u64) -> i64
    requires { n < 2 ^ 63 }
    ensures { result ≡ pos n }
{
    n as i64
}

#[tactic(auto, using(crate::proofs::Fits::some_is))]
pub(crate) fn sum(a: i64, b: i64) -> Option<i64>
    ensures { result ≡ in_i64 (a +ℤ b) }
{
    a.checked_add(b)
}

#[tactic(auto, using(crate::proofs::Fits::some_is))]
pub(crate) fn opposite(a: i64) -> Option<i64>
    ensures { result ≡ in_i64 (neg_ℤ a) }
{
    a.checked_neg()
}

/// A number without sign, moved by one with sign.
pub(crate) fn moved(n: u64, by: i64) -> Option<i64>
    ensures { result ≡ moved n by }
{
    sum(signed(n)?, by)
}
