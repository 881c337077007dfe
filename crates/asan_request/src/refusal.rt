//! Why the arguments are not carried out.

ghost use Rattle.std.specs.Prelude.{◌≡◌};
ghost use Rattle.clap.specs.Values.{kind_of};
ghost use Rattle.asan_request.specs.Refusals.{refusal_of, refusal_of_names};
ghost use Rattle.asan_request.specs.declared.refusal.Refusal.TheVariants.{NoMemory};
ghost use Rattle.asan_request.specs.declared.refusal.Refusal.TheVariants.{OptionOutOfRange};

use asan_inputs::BadNames;
use asan_stream::BadOption;
use clap::Error;
use clap::error::ErrorKind;
use std::alloc::AllocError;

/// Why the arguments are not carried out.
#[derive(Drop)]
pub enum Refusal {
    /// They ask for help, or for the release, which is this text.
    Help(Error),
    /// There is a mistake in them, which this text is about.
    Mistake(Error),
    /// An option is out of its range.
    OptionOutOfRange(BadOption),
    /// There are more than 256 files.
    TooManyFiles,
    /// Standard input is named more than once.
    InputTwice,
    /// There was no memory to read them.
    NoMemory,
}

impl From<Error> for Refusal {
    ghost from_gives = { λ error refusal. refusal ≡ refusal_of (kind_of error) error };

    fn from(error: Error) -> Refusal {
        match error.kind() {
            ErrorKind::OutOfMemory => Refusal::NoMemory,
            ErrorKind::DisplayHelp | ErrorKind::DisplayVersion => Refusal::Help(error),
            _ => Refusal::Mistake(error),
        }
    }
}

impl From<BadOption> for Refusal {
    ghost from_gives = { λ bad refusal. refusal ≡ OptionOutOfRange bad };

    fn from(bad: BadOption) -> Refusal {
        Refusal::OptionOutOfRange(bad)
    }
}

impl From<AllocError> for Refusal {
    ghost from_gives = { λ _ refusal. refusal ≡ NoMemory };

    fn from(_error: AllocError) -> Refusal {
        Refusal::NoMemory
    }
}

impl From<BadNames> for Refusal {
    ghost from_gives = { λ bad refusal. refusal ≡ refusal_of_names bad };

    fn from(bad: BadNames) -> Refusal {
        match bad {
            BadNames::TooMany => Refusal::TooManyFiles,
            BadNames::InputTwice => Refusal::InputTwice,
            BadNames::NoMemory => Refusal::NoMemory,
        }
    }
}
