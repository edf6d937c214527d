//! What is known on ways.
ghost use Rattle.std.specs.Prelude.{◌≡◌};
ghost use Rattle.known_ways.specs.Told.{ways_seen};
ghost use Rattle.need_trails.specs.Trail.{is_known_on_some, is_unknown_on_some, is_joined};

use known_ways::way::KnownWay;
use refusal_needs::wanted::Wanted;

/// Whether what is wanted is known on one of the ways.
pub(crate) fn is_known_on_some(wanted: &Wanted, ways: &[KnownWay]) -> bool
    ensures { result ≡ is_known_on_some wanted.now (ways_seen ways.now) }
{
    for way in ways {
        if wanted.is_known(&way.known) {
            return true;
        }
    }
    false
}

/// Whether it isn't on one of them.
pub(crate) fn is_unknown_on_some(wanted: &Wanted, ways: &[KnownWay]) -> bool
    ensures { result ≡ is_unknown_on_some wanted.now (ways_seen ways.now) }
{
    for way in ways {
        if !wanted.is_known(&way.known) {
            return true;
        }
    }
    false
}

/// Whether ways join, and one of them knows it.
pub(crate) fn is_joined(wanted: &Wanted, ways: &[KnownWay]) -> bool
    ensures { result ≡ is_joined wanted.now (ways_seen ways.now) }
{
    ways.len() > 1 && is_known_on_some(wanted, ways)
}
