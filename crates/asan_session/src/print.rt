//! What is printed of outcomes, and the status that follows from it.

ghost use Rattle.std.specs.Prelude.{◌≡◌, ◌≤◌, All, IfErr, IfOk, List, OnErr, OnOk, Option, length};
ghost use Rattle.std.specs.Prelude.{take, ℕ};
ghost use Rattle.std.specs.Io.KnownBytes.{Appends};
ghost use Rattle.asan_stream.specs.Ranges.{most_reports};
ghost use Rattle.asan_senders.specs.Ranges.{most_senders};
ghost use Rattle.asan_stream.specs.Outcomes.{reports_of};
ghost use Rattle.asan_session.specs.Printed.{HasGoneOut, IsFeedPrinted, IsPrinted};

use asan_collect::{Options, Outcome, WriteFault, check_feed, exit_status, write_outcomes};
use std::alloc::{AllocError, Allocator, Global};
use std::io::Write;
use trace_feed::Feed;

/// Checks one feed as process 0 with the usual options, prints what became of it, and gives the
/// status to end with.
///
/// If there is no memory for the list of its one outcome, the feed is not read.
pub fn report_feed<F: Feed + Drop, W: Write>(
    alloc: Global,
    feed: F,
    output: &mut W,
) -> Result<u8, AllocError>
    requires { (F.seen feed).faults ≡ 0 }
    ensures ok { IfOk result (λ status.
        IsFeedPrinted F.seen feed
        (W.contents output.old) (W.contents output.new) status) }
    ensures err { OnErr result (output.new ≡ output.old) }
{
    let mut outcomes = Vec::with_capacity(alloc, 1)?;
    let outcome = check_feed(alloc, feed, Options::usual());
    outcomes.push(outcome).unwrap();
    Ok(print(alloc, output, &outcomes))
}

/// Prints the texts of outcomes, and gives the status to end with.
pub fn print<F, A: Allocator + Copy, W: Write>(
    alloc: A,
    output: &mut W,
    outcomes: &[Outcome<F, A>],
) -> u8
    requires few { length outcomes.now ≤ most_senders }
    requires few_reports { All (λ o. length (reports_of o) ≤ most_reports) outcomes.now }
    ensures { IsPrinted (W.contents output.old) (W.contents output.new) outcomes.now result }
{
    let wrote = write_outcomes(alloc, output, outcomes);
    flush(output, outcomes, wrote)
}

/// Flushes what was printed of outcomes, unless it could not be written, and gives the status to
/// end with.
pub fn flush<F, A: Allocator + Copy, W: Write>(
    output: &mut W,
    outcomes: &[Outcome<F, A>],
    wrote: Result<(), WriteFault>,
) -> u8
    ensures ok { OnOk wrote ((before : Option (List ℕ)) (text : List ℕ) →
        Appends before (W.contents output.old) text →
        HasGoneOut before (W.contents output.new) text outcomes.now result) }
    ensures fault { IfErr wrote (λ e. (before : Option (List ℕ)) (text : List ℕ) →
        Appends before (W.contents output.old) (take e.written text) →
        HasGoneOut before (W.contents output.new) text outcomes.now result) }
{
    let wrote = wrote.is_ok() && output.flush().is_ok();
    exit_status(outcomes, wrote)
}
