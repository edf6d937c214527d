ghost use Rattle.std.specs.Prelude.{◌≡◌, ℕ, ◌≤◌};

/// How many bytes each lent region has at least.
#[derive(Clone, Copy)]
pub struct Bounds {
    pub text: u64,
    pub link: u64,
    ghost short: { text ≤ 131072 },
    ghost link_short: { link ≤ 1024 },
}
