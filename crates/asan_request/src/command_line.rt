//! What is read of the arguments.

ghost use Rattle.std.specs.Prelude.{◌≡◌, ◌↔◌, [], Ok, IfNone, IfOk, IfSome, IsTrue, Some, codes};
ghost use Rattle.std.specs.Prelude.{false, option_map, string_bytes};
ghost use Rattle.clap.specs.Words.{first_value, found_of, one_text};
ghost use Rattle.asan_inputs.specs.Verbose.{is_verbose as is_verbose_of};
ghost use Rattle.asan_request.specs.Requests.{IsAskedInWords, IsFoundIn, IsQuiet};
ghost use Rattle.asan_request.specs.Settings.{AreFilesOf, AreOptionsOf, IsFlag, IsGiven};
ghost use Rattle.asan_request.specs.Settings.{LacksServing};

use crate::arguments::{
    CHECK, COUNT, FILES, HelpTexts, LIVE, READY, SERVE, SOCKET, VERBOSE, command,
};
use crate::refusal::Refusal;
use crate::request::{Request, TraceFiles};
use crate::settings::options_of;
use asan_inputs::{Serving, is_sender_count, is_verbose, names_of};
use clap::ArgMatches;
use clap::error::ErrorKind;
use std::alloc::Global;

/// What the arguments after the program's name ask for, or why they are not carried out.
pub fn read_arguments(alloc: Global, arguments: &[String]) -> Result<Request, Refusal>
    ensures input { (result ≡ Ok Request.Input) ↔ (arguments.now ≡ []) }
    ensures quiet { is_verbose_of arguments.now ≡ false → (files : TraceFiles) →
        result ≡ Ok (Request.Files files) → files.verbose ≡ false }
{
    if arguments.is_empty() {
        return Ok(Request::Input);
    }
    read_words(alloc, arguments)
}

/// What arguments ask for if there are any, or why they are not carried out.
fn read_words(alloc: Global, arguments: &[String]) -> Result<Request, Refusal>
    ensures asks { IfOk result IsAskedInWords }
    ensures quiet { is_verbose_of arguments.now ≡ false → IfOk result IsQuiet }
{
    let texts = HelpTexts::new(alloc)?;
    let mut command = command(alloc, &texts)?;
    let matches = command.try_get_matches_from_mut(arguments)?;
    match request_of(alloc, &matches, arguments)? {
        Some(request) => Ok(request),
        None => Err(Refusal::Mistake(command.error(
            ErrorKind::MissingSubcommand,
            "a command is missing",
        )?)),
    }
}

/// What the command that was found asks for, unless there is none.
fn request_of(
    alloc: Global,
    matches: &ArgMatches<'_>,
    arguments: &[String],
) -> Result<Option<Request>, Refusal>
    ensures asks { IfOk result (λ request. IfSome request IsAskedInWords) }
    ensures found { IfOk result (IsFoundIn matches.now) }
    ensures quiet { is_verbose_of arguments.now ≡ false →
        IfOk result (λ request. IfSome request IsQuiet) }
{
    match matches.subcommand() {
        Some((CHECK, of_check)) => {
            let files = files_of(alloc, of_check, arguments)?;
            Ok(Some(Request::Files(files)))
        }
        Some((SERVE, of_serve)) => Ok(serving_of(alloc, of_serve)?.map(Request::Serve)),
        _ => Ok(None),
    }
}

/// The files that were found, and how they are checked.
fn files_of(
    alloc: Global,
    matches: &ArgMatches<'_>,
    arguments: &[String],
) -> Result<TraceFiles, Refusal>
    ensures found { IfOk result (AreFilesOf (found_of matches.now)) }
    ensures verbose { IsTrue (is_verbose_of arguments.now) → IfOk result (λ files.
        IsFlag (one_text (found_of matches.now) (codes "verbose")) files.verbose) }
    ensures quiet { is_verbose_of arguments.now ≡ false →
        IfOk result (λ files. files.verbose ≡ false) }
{
    Ok(TraceFiles {
        names: names_of(alloc, matches.get_strs(FILES).unwrap_or(&[]))?,
        options: options_of(matches)?,
        verbose: is_verbose(arguments, matches.get_flag(VERBOSE)),
        is_live: matches.get_flag(LIVE),
    })
}

/// The socket that was found and how it is served, unless its path or a number of senders in range
/// is missing.
fn serving_of(alloc: Global, matches: &ArgMatches<'_>) -> Result<Option<Serving>, Refusal>
    ensures socket { IfOk result (λ serving. IfSome serving (λ s.
        first_value (found_of matches.now) (codes "socket") ≡ Some (string_bytes s.socket))) }
    ensures count { IfOk result (λ serving. IfSome serving (λ s.
        IsGiven 32 (one_text (found_of matches.now) (codes "count")) s.count)) }
    ensures ready { IfOk result (λ serving. IfSome serving (λ s.
        first_value (found_of matches.now) (codes "ready") ≡ option_map string_bytes s.ready)) }
    ensures options { IfOk result (λ serving. IfSome serving (λ s.
        AreOptionsOf (found_of matches.now) s.options)) }
    ensures live { IfOk result (λ serving. IfSome serving (λ s.
        IsFlag (one_text (found_of matches.now) (codes "live")) s.is_live)) }
    ensures lacks { IfOk result (λ serving. IfNone serving
        (LacksServing (found_of matches.now))) }
{
    let (Some(socket), Some(count)) = (matches.get_str(SOCKET), matches.get_one(COUNT)) else {
        return Ok(None);
    };
    if !is_sender_count(count) {
        return Ok(None);
    }
    let ready = match matches.get_str(READY) {
        Some(path) => Some(String::from_str(alloc, path)?),
        None => None,
    };
    Ok(Some(Serving {
        socket: String::from_str(alloc, socket)?,
        count,
        ready,
        options: options_of(matches)?,
        is_live: matches.get_flag(LIVE),
    }))
}
