use change_ops::refusal::ChangeError;
use std::alloc::{AllocError, AllocFailed};
use std::io;

/// Why a line, or the change that it begins, is refused.
#[derive(Clone, Copy)]
pub enum LineRefusal {
    /// 60: it has none of the forms.
    BadCommand,
    /// 54: a capacity that is not 1 to 1,024.
    BadCapacity,
    /// 63: no pairs of hexadecimal digits.
    BadHex,
    /// 40 to 45: the first fault of the change, with its line.
    BadChange(ChangeError),
    /// 45: no memory was found for the program.
    OutOfMemory,
}

/// Why no request was read. The session ends.
#[derive(Clone, Copy)]
pub enum ReadFault {
    /// A read failed.
    Device(io::Error),
    /// No memory was found for the lines.
    Memory,
}

impl From<AllocError> for LineRefusal {
    ghost use Rattle.session_lines.specs.declared.fault.LineRefusal.TheVariants.{OutOfMemory};
    ghost use Rattle.std.specs.Prelude.{◌≡◌};

    ghost from_gives = { λ _ refusal. refusal ≡ OutOfMemory };

    fn from(_error: AllocError) -> LineRefusal {
        LineRefusal::OutOfMemory
    }
}

impl From<AllocError> for ReadFault {
    ghost use Rattle.session_lines.specs.declared.fault.ReadFault.TheVariants.{Memory};
    ghost use Rattle.std.specs.Prelude.{◌≡◌};

    ghost from_gives = { λ _ fault. fault ≡ Memory };

    fn from(_error: AllocError) -> ReadFault {
        ReadFault::Memory
    }
}

impl From<io::Error> for ReadFault {
    ghost use Rattle.session_lines.specs.declared.fault.ReadFault.TheVariants.{Memory};
    ghost use Rattle.std.specs.Prelude.{◌≡◌, ◌↔◌};
    ghost use Rattle.std.specs.IoError.{error_kind};
    ghost use Rattle.std.specs.declared.io.ErrorKind.TheVariants.{OutOfMemory};

    ghost from_gives = { λ error fault. (fault ≡ Memory) ↔ (error_kind error ≡ OutOfMemory) };

    fn from(error: io::Error) -> ReadFault {
        if error.kind() == io::ErrorKind::OutOfMemory {
            ReadFault::Memory
        } else {
            ReadFault::Device(error)
        }
    }
}
