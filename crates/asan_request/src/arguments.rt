//! The commands that the command line may have, and their arguments.

use asan_senders::MAX_SENDERS;
use asan_stream::{MAX_EVENTS, MAX_MEMORY, MAX_RING, MAX_WORKERS, MIN_MEMORY, Options};
use asan_units::MAX_QUARANTINE;
use clap::{Arg, ArgAction, Command, value_parser};
use std::alloc::{AllocError, Global};

/// The name of the program.
const PROGRAM: &str = "asancol";

/// Its release.
const RELEASE: &str = "0.1.0";

/// The names of its commands.
pub const CHECK: &str = "check";

pub const SERVE: &str = "serve";

/// The names of the options, as they are written after `--`.
pub const COUNT: &str = "count";

pub const QUARANTINE: &str = "quarantine";

pub const RING: &str = "ring";

pub const WORKERS: &str = "workers";

pub const LIMIT: &str = "limit";

pub const MEMORY: &str = "memory";

pub const LIVE: &str = "live";

pub const READY: &str = "ready";

pub const VERBOSE: &str = "verbose";

const RELEASE_FLAG: &str = "version";

/// The names of the arguments that have a place of their own.
pub const FILES: &str = "files";

pub const SOCKET: &str = "socket";

/// What the help begins with.
const USAGE: &str = "asancol < TRACE
       asancol check [OPTIONS] <FILE>...
       asancol serve [OPTIONS] --count <SENDERS> <SOCKET>";

/// What it ends with.
const WITHOUT_ARGUMENTS: &str =
    "Without arguments it checks one trace from standard input, as process 0.";

/// What each help ends with.
const STATUSES: &str =
    "The status is 0 if there is nothing to report, 1 if there is, 2 if the command line is refused,
3 if a trace was not checked up to its close, or none could be, and 4 if not everything could be
printed.";

/// The parts of the help that are put together from others. The limits and the defaults are those
/// of `Options`.
#[derive(Drop)]
pub struct HelpTexts {
    files: String,
    count: String,
    quarantine: String,
    ring: String,
    workers: String,
    limit: String,
    memory: String,
    after_help: String,
}

impl HelpTexts {
    pub fn new(alloc: Global) -> Result<HelpTexts, AllocError> {
        let usual = Options::usual();
        Ok(HelpTexts {
            files: format!(in alloc;
                "The traces, 1 to {} of them: the first is process 0, the next process 1 and so \
                 on; - is standard input",
                MAX_SENDERS
            )?,
            count: format!(in alloc;
                "Connections to accept before the first is read, 1 to {}: the first is process 0",
                MAX_SENDERS
            )?,
            quarantine: format!(in alloc;
                "Bytes of freed blocks and their redzones to hold back, 0 to {} [default: {}]",
                MAX_QUARANTINE, usual.quarantine
            )?,
            ring: format!(in alloc;
                "Events of each process that may wait for its checker, 1 to {} [default: {}]",
                MAX_RING, usual.ring
            )?,
            workers: format!(in alloc;
                "Worker threads that share the processes and work side by side, 1 to {} \
                 [default: {}]",
                MAX_WORKERS, usual.workers
            )?,
            limit: format!(in alloc;
                "Events that each trace may have, 1 to {} [default: {}]",
                MAX_EVENTS, usual.limit
            )?,
            memory: format!(in alloc;
                "Bytes that the checker of each process may hold, {} to {} [default: no bound]",
                MIN_MEMORY, MAX_MEMORY
            )?,
            after_help: format!(in alloc; "{WITHOUT_ARGUMENTS}\n\n{STATUSES}")?,
        })
    }
}

/// All that the command line may have.
pub fn command<'a>(alloc: Global, texts: &'a HelpTexts) -> Result<Command<'a>, AllocError> {
    let release = Arg::new(alloc, RELEASE_FLAG)
        .long(RELEASE_FLAG)
        .help("Print version")
        .action(ArgAction::Version);
    Command::new(alloc, PROGRAM)
        .no_binary_name(true)
        .bin_name(PROGRAM)?
        .version(RELEASE)
        .disable_version_flag(true)
        .arg(release)?
        .override_usage(USAGE)
        .about("Reports the bad memory accesses, frees and mallocs of recorded runs")
        .after_help(texts.after_help.as_str())
        .subcommand(check_command(alloc, texts)?)?
        .subcommand(serve_command(alloc, texts)?)
}

/// The command that names files.
fn check_command<'a>(alloc: Global, texts: &'a HelpTexts) -> Result<Command<'a>, AllocError> {
    let files = Arg::new(alloc, FILES)
        .value_name("FILE")
        .help(texts.files.as_str())
        .required(true)
        .num_args(1..)
        .action(ArgAction::Append);
    let verbose = Arg::new(alloc, VERBOSE)
        .long(VERBOSE)
        .help("Say at the end, on standard error, what became of each file")
        .action(ArgAction::SetTrue);
    let command = Command::new(alloc, CHECK)
        .about("Checks the traces in files, each as one process")
        .after_help(STATUSES);
    with_options(alloc, texts, command)?
        .arg(verbose)?
        .arg(files)
}

/// The command that names a socket.
fn serve_command<'a>(alloc: Global, texts: &'a HelpTexts) -> Result<Command<'a>, AllocError> {
    let socket = Arg::new(alloc, SOCKET)
        .value_name("SOCKET")
        .help("The path of the socket: nothing may be there yet, and the socket stays afterwards")
        .required(true)
        .action(ArgAction::Set);
    let command = Command::new(alloc, SERVE)
        .about("Checks the traces sent to a Unix socket, each connection as one process")
        .after_help(STATUSES)
        .arg(count(alloc, texts))?;
    with_options(alloc, texts, command)?
        .arg(ready(alloc))?
        .arg(socket)
}

/// Adds the options that say how traces are checked.
fn with_options<'a>(
    alloc: Global,
    texts: &'a HelpTexts,
    command: Command<'a>,
) -> Result<Command<'a>, AllocError> {
    command
        .arg(number(alloc, QUARANTINE, "BYTES", texts.quarantine.as_str()).value_parser(
            value_parser!(u64).range(0..=MAX_QUARANTINE as i64),
        ))?
        .arg(number(alloc, RING, "EVENTS", texts.ring.as_str()).value_parser(value_parser!(
            u32
        ).range(1..=i64::from(MAX_RING))))?
        .arg(number(alloc, WORKERS, "WORKERS", texts.workers.as_str()).value_parser(value_parser!(
            u32
        ).range(1..=i64::from(MAX_WORKERS))))?
        .arg(number(alloc, LIMIT, "EVENTS", texts.limit.as_str()).value_parser(value_parser!(
            u32
        ).range(1..=i64::from(MAX_EVENTS))))?
        .arg(number(alloc, MEMORY, "BYTES", texts.memory.as_str()).value_parser(value_parser!(
            u64
        ).range(MIN_MEMORY as i64..=MAX_MEMORY as i64)))?
        .arg(live(alloc))
}

fn count<'a>(alloc: Global, texts: &'a HelpTexts) -> Arg<'a> {
    number(alloc, COUNT, "SENDERS", texts.count.as_str())
        .required(true)
        .value_parser(value_parser!(u32).range(1..=MAX_SENDERS as i64))
}

/// An option whose value is a number. One below 0 is refused as a value, and not taken for an
/// option.
fn number<'a>(alloc: Global, name: &'static str, value: &'static str, help: &'a str) -> Arg<'a> {
    Arg::new(alloc, name)
        .long(name)
        .value_name(value)
        .help(help)
        .allow_negative_numbers(true)
        .action(ArgAction::Set)
}

fn live<'a>(alloc: Global) -> Arg<'a> {
    Arg::new(alloc, LIVE)
        .long(LIVE)
        .help("Print each report when it is found, and the end lines last")
        .action(ArgAction::SetTrue)
}

fn ready<'a>(alloc: Global) -> Arg<'a> {
    Arg::new(alloc, READY)
        .long(READY)
        .value_name("FILE")
        .help("A file to make, or to empty, once the socket listens")
        .action(ArgAction::Set)
}
