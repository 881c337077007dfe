//! A session: the senders of a door are checked, and what became of them is printed.

ghost use Rattle.std.specs.Prelude.{◌≡◌, ◌<◌, ◌≤◌, ◌⊎◌, ◌^◌, IfOk, None, OnErr};
ghost use Rattle.asan_senders.specs.Statuses.{unchecked, unwritten};

use crate::memory::BoundedHeaps;
use crate::print::{flush, print};
use asan_check::ending_text;
use asan_collect::{Collector, Heaps, Live, OpenGate, Options, Outcome};
use refusing_allocator::RefusingAllocator;
use std::alloc::{AllocError, Allocator, Global};
use std::io::Write;
use std::sync::Wait;
use std::thread::Threads;
use std::time::Clock;
use trace_feed::Door;

/// How the senders of a door are checked, and when what became of them is printed.
#[derive(Clone, Copy, Debug)]
pub struct Checking {
    /// How each of them is checked.
    pub options: Options,
    /// Whether each report is printed when it is found. If not, everything is printed at the end.
    pub is_live: bool,
}

/// What a session runs on, and how it checks.
#[derive(Drop)]
pub struct Session<'a, R> {
    pub rt: &'a R,
    pub checking: Checking,
}

/// What became of all senders, and the status to end with.
#[derive(Drop)]
struct Reported<F, A: Allocator + Copy> {
    outcomes: Vec<Outcome<F, A>, A>,
    status: u8,
}

impl<R: Threads + Wait + Clock + Sync + AllocGlobal> Session<'_, R> {
    ghost use Rattle.asan_session.specs.Bounds.{AreBounded};
    ghost use Rattle.asan_session.specs.Printed.{AreOutcomesPrinted, AreSendersPrinted};
    ghost use Rattle.asan_session.specs.Printed.{BoundedMemory, CheckersMemory};

    /// Checks the feeds of the senders that come through a door, which are read side by side,
    /// prints what became of all of them, and gives the status to end with. Reading starts once the
    /// door is over or has given 256 other answers. The feed of a sender that came alone is read
    /// and checked on the calling thread. If the senders have names, what became of each of them is
    /// then said on `stderr`.
    ///
    /// If the options bound the memory of the checkers, each checker has its own allocator,
    /// with that bound.
    ///
    /// # Errors
    ///
    /// There is no memory for the lists of senders or for their allocators. The door was not asked
    /// then.
    pub fn report_each<D: Door, W: Write, E: Write>(
        &self,
        door: &mut D,
        output: &mut W,
        names: Option<&[String]>,
        stderr: &mut E,
    ) -> Result<u8, AllocError>
    where
        D::Feed: Send + Drop,
        requires { (D.seen door.old).refusals ≤ 2 ^ 32 }
        ensures ok { IfOk result (AreSendersPrinted D.Feed.seen
            (CheckersMemory self.now.checking.options.memory) self.now.checking
            (D.seen door.old) (D.seen door.new)
            (W.contents output.old) (W.contents output.new)) }
        ensures refused { IfOk result (λ status.
            (D.seen door.old).refusals < (D.seen door.new).refusals →
            (status ≡ unchecked) ⊎ (status ≡ unwritten)) }
        ensures unasked { OnErr result (door.new ≡ door.old) }
        ensures err { OnErr result (output.new ≡ output.old) }
        ensures quiet { names.entry ≡ None → stderr.new ≡ stderr.old }
    {
        let alloc = self.rt.alloc();
        match self.checking.options.memory {
            None => {
                let reported = self.print_senders(Heaps::all_from(alloc), door, output)?;
                Ok(end_with(alloc, reported, names, stderr))
            }
            Some(bytes) => {
                let heaps = BoundedHeaps::new(alloc, bytes)?;
                let reported = self.print_within(&heaps, door, output)?;
                Ok(end_with(&heaps.shared, reported, names, stderr))
            }
        }
    }

    /// Does what [`Session::print_senders`] does. The checker of each sender has one of these
    /// allocators.
    fn print_within<'h, D: Door, W: Write>(
        &self,
        heaps: &'h BoundedHeaps,
        door: &mut D,
        output: &mut W,
    ) -> Result<Reported<D::Feed, &'h RefusingAllocator<Global>>, AllocError>
    where
        D::Feed: Send + Drop,
        requires few_refused { (D.seen door.old).refusals ≤ 2 ^ 32 }
        requires bound { AreBounded self.now.checking.options.memory heaps.now }
        ensures ok { IfOk result (λ reported. AreOutcomesPrinted D.Feed.seen BoundedMemory
            self.now.checking (D.seen door.old) (D.seen door.new)
            (W.contents output.old) (W.contents output.new)
            reported.outcomes.items reported.status) }
        ensures unasked { OnErr result (door.new ≡ door.old) }
        ensures err { OnErr result (output.new ≡ output.old) }
    {
        let own = heaps.own.iter().collect::<Vec<_>>(self.rt.alloc())?;
        let heaps = Heaps {
            shared: &heaps.shared,
            own: &own,
        };
        self.print_senders(heaps, door, output)
    }

    /// Checks the feeds. Prints each report when it is found, or what became of all senders at the
    /// end.
    fn print_senders<D: Door, W: Write, A: Allocator + Copy + Send>(
        &self,
        heaps: Heaps<'_, A>,
        door: &mut D,
        output: &mut W,
    ) -> Result<Reported<D::Feed, A>, AllocError>
    where
        D::Feed: Send + Drop,
        requires { (D.seen door.old).refusals ≤ 2 ^ 32 }
        ensures ok { IfOk result (λ reported. AreOutcomesPrinted D.Feed.seen A
            self.now.checking (D.seen door.old) (D.seen door.new)
            (W.contents output.old) (W.contents output.new)
            reported.outcomes.items reported.status) }
        ensures unasked { OnErr result (door.new ≡ door.old) }
        ensures err { OnErr result (output.new ≡ output.old) }
    {
        let Checking { options, is_live } = self.checking;
        let alloc = heaps.shared;
        let collector = Collector {
            rt: self.rt,
            gate: &OpenGate,
            heaps,
            options,
        };
        if is_live {
            let (live, _) = collector.collect_live_openly(door, output)?;
            let Live { outcomes, wrote } = live;
            let status = flush(output, &outcomes, wrote);
            return Ok(Reported { outcomes, status });
        }
        let (outcomes, _) = collector.collect_openly(door)?;
        let status = print(alloc, output, &outcomes);
        Ok(Reported { outcomes, status })
    }
}

/// Says what became of the senders that have names, and gives the status to end with.
fn end_with<F: Drop, A: Allocator + Copy, E: Write>(
    alloc: A,
    reported: Reported<F, A>,
    names: Option<&[String]>,
    stderr: &mut E,
) -> u8
    ensures status { result ≡ reported.status }
    ensures quiet { names.entry ≡ None → stderr.new ≡ stderr.old }
{
    let Reported { outcomes, status } = reported;
    if let Some(names) = names {
        name_each(alloc, names, &outcomes, stderr);
    }
    status
}

/// Writes a line for each sender that has a name: its number, its name and what became of it. A
/// line that can't be written is left out.
fn name_each<F, A: Allocator + Copy, E: Write>(
    alloc: A,
    names: &[String],
    outcomes: &[Outcome<F, A>],
    stderr: &mut E,
) {
    for (process, outcome) in outcomes.iter().enumerate() {
        let mut end = String::new(alloc);
        if let Some(name) = names.get(process)
            && ending_text(&outcome.ending(), &mut end).is_ok()
        {
            let _ = writeln!(stderr, "p{process} {}: {end}", name.escape_debug());
        }
    }
}
