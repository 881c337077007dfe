//! The program, over the words of its command line, a reader and two writers.

ghost use Rattle.std.specs.Prelude.{◌≡◌, ◌≢◌, ◌≤◌, ◌⊎◌, [], Err, IfErr, IfOk, Ok, OnErr};
ghost use Rattle.std.specs.Prelude.{false};
ghost use Rattle.asan_senders.specs.Statuses.{unchecked, unwritten};
ghost use Rattle.asan_inputs.specs.Verbose.{is_verbose};
ghost use Rattle.asan_session.specs.Printed.{IsInputPrinted};
ghost use Rattle.asan_request.specs.Refusals.{IsStatusFor, refused};
ghost use Rattle.asan_program.specs.Carried.{AreFilesPrinted, ArePeersPrinted};
ghost use Rattle.asan_program.specs.declared.program.Unable.TheVariants.{NoMemory, ToServe};

use asan_inputs::{CannotServe, InputDoor, InputFeed, Serving, door_of, listen};
use asan_request::{Refusal, Request, TraceFiles, read_arguments};
use asan_senders::{UNCHECKED, UNWRITTEN};
use asan_session::{Checking, Session, no_memory, report_feed, say};
use clap::error::ErrorKind;
use std::alloc::AllocError;
use std::fs::File;
use std::io::{Read, Write};
use std::net::Net;
use std::os::unix::net::UnixStream;
use std::rt::Files;
use std::sync::Wait;
use std::thread::Threads;
use std::time::Clock;
use trace_feed::{Door, Feed, ReadFeed, UnixDoor};

/// The status where help or the release was asked for and printed.
const HELPED: u8 = 0;

/// The status of a command line that is refused.
const REFUSED: u8 = 2;

/// Runs the program on the words after its name, and gives the status that it ends with.
///
/// With no words it checks one trace from `input`. The texts of all processes go to `output`. Only
/// what is wrong with the command line, that there is no memory to start, or that the socket can't
/// be served goes to `faults`, which is standard error, and with `--verbose` what became of each
/// file. A write to `faults` that fails changes nothing.
pub fn run<R, I, O, E>(rt: &R, words: &[String], input: I, output: &mut O, faults: &mut E) -> u8
where
    R: Files<File = File> + Net + Threads + Wait + Clock + Sync + AllocGlobal,
    I: Read + Send + Drop,
    O: Write,
    E: Write,
    ensures no_words { words.now ≡ [] →
        IsInputPrinted ⟦<ReadFeed<I> as Feed>⟧.seen
        (I.remaining input) (O.contents output.old) (O.contents output.new) result
        ⊎ ((result ≡ unchecked) × (output.new ≡ output.old)) }
    ensures refused { result ≡ refused → output.new ≡ output.old }
    ensures quiet { is_verbose words.now ≡ false →
        result ≢ refused → result ≢ unchecked → faults.new ≡ faults.old }
    ensures apart { is_verbose words.now ≡ false →
        (output.new ≡ output.old) ⊎ (faults.new ≡ faults.old) }
    ensures known { result ≤ unwritten }
{
    let asked = read_arguments(rt.alloc(), words);
    answer(rt, asked, words, input, output, faults)
}

/// Carries out what these words ask for, or says why it is not carried out, and gives the status to
/// end with.
fn answer<'a, R, I, O, E>(
    rt: &'a R,
    asked: Result<Request, Refusal>,
    words: &[String],
    input: I,
    output: &mut O,
    faults: &mut E,
) -> u8
where
    R: Files<File = File> + Net + Threads + Wait + Clock + Sync + AllocGlobal,
    I: Read + Send + Drop,
    O: Write,
    E: Write,
    ensures cause { IfErr asked (λ refusal. IsStatusFor refusal result) }
    ensures taken { IfOk asked (λ _. result ≢ refused) }
    ensures input { asked ≡ Ok Request.Input →
        IsInputPrinted ⟦<ReadFeed<I> as Feed>⟧.seen
        (I.remaining input) (O.contents output.old) (O.contents output.new) result
        ⊎ ((result ≡ unchecked) × (output.new ≡ output.old)) }
    ensures files { (files : TraceFiles) → asked ≡ Ok (Request.Files files) →
        AreFilesPrinted
        ⟦<InputFeed<ReadFeed<File>, ReadFeed<I>> as Feed>⟧.seen
        ⟦<InputDoor<'a, R, I> as Door>⟧.seen
        files (I.remaining input) (O.contents output.old) (O.contents output.new) result
        ⊎ ((result ≡ unchecked) × (output.new ≡ output.old)) }
    ensures serve { (serving : Serving) → asked ≡ Ok (Request.Serve serving) →
        ArePeersPrinted
        ⟦<ReadFeed<UnixStream> as Feed>⟧.seen ⟦<UnixDoor as Door>⟧.seen
        serving (O.contents output.old) (O.contents output.new) result
        ⊎ ((result ≡ unchecked) × (output.new ≡ output.old)) }
    ensures refused { result ≡ refused → output.new ≡ output.old }
    ensures quiet { ((files : TraceFiles) → asked ≡ Ok (Request.Files files) →
        files.verbose ≡ false) →
        result ≢ refused → result ≢ unchecked → faults.new ≡ faults.old }
    ensures apart { ((files : TraceFiles) → asked ≡ Ok (Request.Files files) →
        files.verbose ≡ false) →
        (output.new ≡ output.old) ⊎ (faults.new ≡ faults.old) }
    ensures known { result ≤ unwritten }
{
    let request = match asked {
        Ok(request) => request,
        Err(refusal) => return refuse(refusal, words, output, faults),
    };
    match carry_out(rt, request, input, output, faults) {
        Ok(status) => status,
        Err(Unable::NoMemory) => no_memory(faults),
        Err(Unable::ToServe(error)) => say(faults, &error, UNCHECKED),
    }
}

/// Why a request was not carried out.
#[derive(Drop)]
enum Unable {
    /// There was no memory to start.
    NoMemory,
    /// The socket can't be served.
    ToServe(CannotServe),
}

impl From<AllocError> for Unable {
    ghost from_gives = { λ _ unable. unable ≡ NoMemory };

    fn from(_error: AllocError) -> Unable {
        Unable::NoMemory
    }
}

impl From<CannotServe> for Unable {
    ghost from_gives = { λ error unable. unable ≡ ToServe error };

    fn from(error: CannotServe) -> Unable {
        Unable::ToServe(error)
    }
}

/// Checks the traces that are asked for, prints what became of each, and gives the status to end
/// with.
///
/// # Errors
///
/// There is no memory to start, or the socket can't be served. No trace was read then.
fn carry_out<'a, R, I, O, E>(
    rt: &'a R,
    request: Request,
    input: I,
    output: &mut O,
    stderr: &mut E,
) -> Result<u8, Unable>
where
    R: Files<File = File> + Net + Threads + Wait + Clock + Sync + AllocGlobal,
    I: Read + Send + Drop,
    O: Write,
    E: Write,
    ensures input { request ≡ Request.Input → IfOk result (IsInputPrinted
        ⟦<ReadFeed<I> as Feed>⟧.seen
        (I.remaining input) (O.contents output.old) (O.contents output.new)) }
    ensures files { (files : TraceFiles) → request ≡ Request.Files files →
        IfOk result (AreFilesPrinted
        ⟦<InputFeed<ReadFeed<File>, ReadFeed<I>> as Feed>⟧.seen
        ⟦<InputDoor<'a, R, I> as Door>⟧.seen
        files (I.remaining input) (O.contents output.old) (O.contents output.new)) }
    ensures serve { (serving : Serving) → request ≡ Request.Serve serving →
        IfOk result (ArePeersPrinted
        ⟦<ReadFeed<UnixStream> as Feed>⟧.seen ⟦<UnixDoor as Door>⟧.seen
        serving (O.contents output.old) (O.contents output.new)) }
    ensures status { IfOk result (λ status. (status ≤ unwritten) × (status ≢ refused)) }
    ensures unprinted { OnErr result (output.new ≡ output.old) }
    ensures unable { (error : CannotServe) → result ≡ Err (ToServe error) →
        (serving : Serving) × (request ≡ Request.Serve serving) }
    ensures quiet { ((files : TraceFiles) → request ≡ Request.Files files → files.verbose ≡ false)
        → stderr.new ≡ stderr.old }
{
    match request {
        Request::Input => Ok(report_feed(rt.alloc(), ReadFeed::new(input), output)?),
        Request::Files(files) => Ok(check_files(rt, &files, input, output, stderr)?),
        Request::Serve(serving) => serve(rt, &serving, output, stderr),
    }
}

/// Checks the traces in these files. One of them may be the input.
fn check_files<'a, R, I, O, E>(
    rt: &'a R,
    files: &TraceFiles,
    input: I,
    output: &mut O,
    stderr: &mut E,
) -> Result<u8, AllocError>
where
    R: Files<File = File> + Threads + Wait + Clock + Sync + AllocGlobal,
    I: Read + Send + Drop,
    O: Write,
    E: Write,
    ensures files { IfOk result (AreFilesPrinted
        ⟦<InputFeed<ReadFeed<File>, ReadFeed<I>> as Feed>⟧.seen
        ⟦<InputDoor<'a, R, I> as Door>⟧.seen
        files.now (I.remaining input) (O.contents output.old) (O.contents output.new)) }
    ensures status { IfOk result (λ status. (status ≤ unwritten) × (status ≢ refused)) }
    ensures unprinted { OnErr result (output.new ≡ output.old) }
    ensures quiet { files.now.verbose ≡ false → stderr.new ≡ stderr.old }
{
    let mut door = door_of(rt, rt.alloc(), &files.names, input)?;
    let names = files.verbose.then_some(files.names.as_slice());
    let checking = Checking {
        options: files.options,
        is_live: files.is_live,
    };
    Session { rt, checking }.report_each(&mut door, output, names, stderr)
}

/// Checks the traces that come through a socket, which is made first.
fn serve<R, O, E>(rt: &R, serving: &Serving, output: &mut O, stderr: &mut E) -> Result<u8, Unable>
where
    R: Files<File = File> + Net + Threads + Wait + Clock + Sync + AllocGlobal,
    O: Write,
    E: Write,
    ensures peers { IfOk result (ArePeersPrinted
        ⟦<ReadFeed<UnixStream> as Feed>⟧.seen ⟦<UnixDoor as Door>⟧.seen
        serving.now (O.contents output.old) (O.contents output.new)) }
    ensures status { IfOk result (λ status. (status ≤ unwritten) × (status ≢ refused)) }
    ensures unprinted { OnErr result (output.new ≡ output.old) }
    ensures quiet { stderr.new ≡ stderr.old }
{
    let mut door = listen(rt, serving)?;
    let checking = Checking {
        options: serving.options,
        is_live: serving.is_live,
    };
    Ok(Session { rt, checking }.report_each(&mut door, output, None, stderr)?)
}

/// Says why the arguments are not carried out, and gives the status to end with.
fn refuse<O: Write, E: Write>(
    refusal: Refusal,
    arguments: &[String],
    output: &mut O,
    stderr: &mut E,
) -> u8
    ensures status { IsStatusFor refusal result }
    ensures refused { result ≡ refused → output.new ≡ output.old }
    ensures quiet { result ≢ refused → result ≢ unchecked → stderr.new ≡ stderr.old }
    ensures apart { (output.new ≡ output.old) ⊎ (stderr.new ≡ stderr.old) }
{
    match refusal {
        Refusal::Help(help) => {
            let wrote = write!(output, "{help}").is_ok() && output.flush().is_ok();
            if wrote { HELPED } else { UNWRITTEN }
        }
        Refusal::Mistake(mistake) => {
            // The text ends with a line feed.
            let _ = write!(stderr, "{mistake}");
            if let Some(hint) = hint_for(mistake.kind(), arguments) {
                let _ = writeln!(stderr, "\n{hint}");
            }
            REFUSED
        }
        Refusal::OptionOutOfRange(bad) => say(stderr, &bad, REFUSED),
        Refusal::TooManyFiles => say(stderr, &"too many files", REFUSED),
        Refusal::InputTwice => say(stderr, &"error: '-' is given more than once", REFUSED),
        Refusal::NoMemory => no_memory(stderr),
    }
}

/// What else to say of arguments with a mistake of this kind.
fn hint_for(kind: ErrorKind, arguments: &[String]) -> Option<&'static str> {
    match kind {
        ErrorKind::InvalidSubcommand => Some("To check a trace in a file: asancol check FILE"),
        ErrorKind::UnknownArgument if has_short_form(arguments) => {
            Some("The options --verbose and --version have no short form")
        }
        _ => None,
    }
}

/// Whether one of these arguments is what other programs take for `--verbose` or `--version`.
fn has_short_form(arguments: &[String]) -> bool {
    arguments
        .iter()
        .any(|it| it.as_str() == "-v" || it.as_str() == "-V")
}

/// Says that this argument is not UTF-8, and gives the status to end with.
pub fn not_utf8<E: Write>(stderr: &mut E, argument: &[u8]) -> u8
    ensures { result ≡ refused }
{
    let _ = writeln!(
        stderr,
        "error: an argument is not valid UTF-8: '{}'",
        argument.escape_ascii()
    );
    REFUSED
}
