//! The options that were found among the arguments.

ghost use Rattle.std.specs.Prelude.{◌≡◌, IfErr, IfOk, None, codes};
ghost use Rattle.clap.specs.Words.{found_of, one_text};
ghost use Rattle.asan_request.specs.Settings.{AreOptionsOf, AreSizesOf, IsBadOption, IsBadSize};
ghost use Rattle.asan_request.specs.Settings.{IsSetIfGiven};

use crate::arguments::{LIMIT, MEMORY, QUARANTINE, RING, WORKERS};
use asan_stream::{BadOption, Options};
use clap::ArgMatches;

/// The options that were found, and the usual ones in place of those that were not.
#[tactic(auto, using(crate::proofs::Reading::options_read))]
pub fn options_of(matches: &ArgMatches<'_>) -> Result<Options, BadOption>
    ensures found { IfOk result (AreOptionsOf (found_of matches.now)) }
    ensures refused { IfErr result (IsBadOption (found_of matches.now)) }
{
    let options = sizes_of(matches)?;
    match memory_of(matches) {
        Some(bytes) => options.with_memory(bytes),
        None => Ok(options),
    }
}

/// The options that were found, but for a bound on memory.
fn sizes_of(matches: &ArgMatches<'_>) -> Result<Options, BadOption>
    ensures found { IfOk result (AreSizesOf (found_of matches.now)) }
    ensures refused { IfErr result (IsBadSize (found_of matches.now)) }
    ensures unbounded { IfOk result (λ o. o.memory ≡ None) }
{
    let usual = Options::usual();
    Options::new(
        matches.get_one(QUARANTINE).unwrap_or(usual.quarantine),
        matches.get_one(RING).unwrap_or(usual.ring),
        matches.get_one(WORKERS).unwrap_or(usual.workers),
        matches.get_one(LIMIT).unwrap_or(usual.limit),
    )
}

/// The bound on memory that was found.
fn memory_of(matches: &ArgMatches<'_>) -> Option<u64>
    ensures { IsSetIfGiven 64 (one_text (found_of matches.now) (codes "memory")) result }
{
    matches.get_one(MEMORY)
}
