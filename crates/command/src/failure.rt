ghost use Rattle.std.specs.Prelude.{◌≡◌};
ghost use Rattle.command.specs.declared.failure.Failure.TheVariants.{Usage, NoMemory, System};

use super::options::{Channel, Misuse};
use std::alloc::AllocError;
use std::{fmt, io};
use thiserror::Error;

/// Why the program ends without a statement. No script is a failure, whatever its bytes.
#[derive(Drop, Error)]
pub enum Failure {
    #[error("usage: play [--brief] SCRIPT [ANSWERS]   (- is standard input or output)")]
    Usage,
    #[error("cannot read the script {channel}: {cause}")]
    Unread { channel: Channel, cause: io::Error },
    #[error("cannot write the answers {channel}: {cause}")]
    Unwritten { channel: Channel, cause: io::Error },
    #[error(transparent)]
    NoMemory(AllocError),
    #[error(transparent)]
    System(io::Error),
}

// The conversions are by hand: one that is derived does not promise which failure it makes.

impl From<Misuse> for Failure {
    ghost from_gives = { λ _ r. r ≡ Usage };

    fn from(_misuse: Misuse) -> Failure {
        Failure::Usage
    }
}

impl From<AllocError> for Failure {
    ghost from_gives = { λ e r. r ≡ NoMemory e };

    fn from(cause: AllocError) -> Failure {
        Failure::NoMemory(cause)
    }
}

impl From<io::Error> for Failure {
    ghost from_gives = { λ e r. r ≡ System e };

    fn from(cause: io::Error) -> Failure {
        Failure::System(cause)
    }
}

// What a failed `main` reports is the message itself, which a derived `Debug` would not show.
impl fmt::Debug for Failure {
    fn fmt<W: fmt::Write>(&self, f: &mut fmt::Formatter<W>) -> fmt::Result {
        write!(f, "{self}")
    }
}
