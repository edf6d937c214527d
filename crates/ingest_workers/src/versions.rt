ghost use Rattle.std.specs.Prelude.{◌≡◌, ◌+◌, ◌≤◌, IfOk, take, drop, length};

use hub_core::hub::Core;
use std::alloc::{AllocError, Global};
use std::sync::Wait;
use subscriber_queues::ends::QueueSink;
use version_history::published::{Naming, VersionToken};

/// The tokens of `most` versions from one on, or of as many as there are.
#[tactic(auto, using(crate::proofs::Looking::take_last))]
pub(crate) fn some_versions<N: Naming, R: Wait + Copy>(
    alloc: Global,
    core: &Core<'_, N, QueueSink<N, R>>,
    from: u64,
    most: usize,
) -> Result<Vec<VersionToken<N>>, AllocError>
    requires { from + length core.now.versions ≤ 4294967296 }
    ensures { IfOk result (λ some. some.items ≡ take most (drop from core.now.versions)) }
{
    let mut some = Vec::new(alloc);
    for index in 0..most {
        let Some(token) = core.version(from + index as u64) else {
            break;
        };
        some.push(token)?;
    }
    Ok(some)
}
