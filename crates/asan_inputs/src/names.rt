//! The names of the files to check, one of which may be that of standard input.

ghost use Rattle.std.specs.Prelude.{◌≡◌, ◌<◌, ◌≤◌, ◌↔◌, Err, IfOk, length, map, string_bytes};
ghost use Rattle.asan_senders.specs.Ranges.{most_senders};
ghost use Rattle.asan_inputs.specs.declared.names.BadNames.TheVariants.{NoMemory};
ghost use Rattle.asan_inputs.specs.Inputs.{inputs_among};

use crate::input_door::INPUT;
use asan_senders::MAX_SENDERS;
use std::alloc::{AllocError, AllocFailed, Global};

/// Why the files of some names are not checked.
#[derive(Drop)]
pub enum BadNames {
    /// There are more than 256.
    TooMany,
    /// Standard input is named more than once.
    InputTwice,
    /// There was no memory for the names.
    NoMemory,
}

impl From<AllocError> for BadNames {
    ghost from_gives = { λ _ bad. bad ≡ NoMemory };

    fn from(_error: AllocError) -> BadNames {
        BadNames::NoMemory
    }
}

impl<T: Drop> From<AllocFailed<T>> for BadNames {
    ghost from_gives = { λ _ bad. bad ≡ NoMemory };

    fn from(_error: AllocFailed<T>) -> BadNames {
        BadNames::NoMemory
    }
}

/// The names of these files, in order, unless they are more than one call takes, or standard input
/// is among them more than once.
pub fn names_of(alloc: Global, files: &[&str]) -> Result<Vec<String>, BadNames>
    ensures same { IfOk result (λ names.
        map string_bytes names.items ≡ map (λ file. file.now) files.now) }
    ensures few { IfOk result (λ names. length names.items ≤ most_senders) }
    ensures once { IfOk result (λ _. inputs_among (map (λ file. file.now) files.now) ≤ 1) }
    ensures too_many { (result ≡ Err BadNames.TooMany) ↔ (most_senders < length files.now) }
    ensures twice { result ≡ Err BadNames.InputTwice →
        1 < inputs_among (map (λ file. file.now) files.now) }
{
    if files.len() > MAX_SENDERS {
        return Err(BadNames::TooMany);
    }
    let mut names = Vec::new(alloc);
    let mut has_input = false;
    for file in files {
        let is_input = *file == INPUT;
        if is_input && has_input {
            return Err(BadNames::InputTwice);
        }
        has_input = has_input || is_input;
        names.push(String::from_str(alloc, file)?)?;
    }
    Ok(names)
}
