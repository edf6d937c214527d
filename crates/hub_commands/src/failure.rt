ghost use Rattle.std.specs.Prelude.{◌≡◌, ◌≢◌};
ghost use Rattle.std.specs.IoError.{error_kind};
ghost use Rattle.std.specs.declared.io.ErrorKind.TheVariants.{OutOfMemory};

use std::alloc::{AllocError, AllocFailed};
use std::io;

/// Why a command ends without an answer of its own.
#[derive(Clone, Copy)]
pub enum Failure {
    /// A read of the input failed.
    Read(io::Error),
    /// A write of the answer failed.
    Write(io::Error),
    /// No memory was found.
    Memory,
}

impl Failure {
    /// What the error of a read says.
    pub fn of_read(error: io::Error) -> Failure
        ensures memory { error_kind error ≡ OutOfMemory → result ≡ Failure.Memory }
        ensures device { error_kind error ≢ OutOfMemory → result ≡ Failure.Read error }
    {
        if error.kind() == io::ErrorKind::OutOfMemory {
            Failure::Memory
        } else {
            Failure::Read(error)
        }
    }

    /// What the error of a write says.
    pub fn of_write(error: io::Error) -> Failure
        ensures memory { error_kind error ≡ OutOfMemory → result ≡ Failure.Memory }
        ensures device { error_kind error ≢ OutOfMemory → result ≡ Failure.Write error }
    {
        if error.kind() == io::ErrorKind::OutOfMemory {
            Failure::Memory
        } else {
            Failure::Write(error)
        }
    }
}

impl From<AllocError> for Failure {
    ghost use Rattle.hub_commands.specs.declared.failure.Failure.TheVariants.{Memory};
    ghost use Rattle.std.specs.Prelude.{◌≡◌};

    ghost from_gives = { λ _ failure. failure ≡ Memory };

    fn from(_error: AllocError) -> Failure {
        Failure::Memory
    }
}

impl<T: Drop> From<AllocFailed<T>> for Failure {
    ghost use Rattle.hub_commands.specs.declared.failure.Failure.TheVariants.{Memory};
    ghost use Rattle.std.specs.Prelude.{◌≡◌};

    ghost from_gives = { λ _ failure. failure ≡ Memory };

    fn from(_failed: AllocFailed<T>) -> Failure {
        Failure::Memory
    }
}
