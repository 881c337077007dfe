//! Tests of collections in which each checker takes its memory from its own allocator.

ghost use Rattle.std.specs.Prelude.{◌≤◌, ◌^◌};

use super::collect::misses;
use super::{Listed, Sent, expect_eq, expect_eq_at};
use asan_collect::{BadOption, Collector, Heaps, MAX_SENDERS, OpenGate, Options, Outcome};
use refusing_allocator::RefusingAllocator;
use std::alloc::{Allocator, Global};
use std::process::Abort;
use std::sync::Wait;
use std::test::Fail;
use std::thread::Threads;
use std::time::Clock;
use test_streams::STREAM_AND_MORE;
use trace_feed::{Door, MemFeed};
use trace_record::Fate;

/// Three senders of the same stream.
static THREE_OF_A_KIND: [Sent<'static>; 3] = [Some((&STREAM_AND_MORE, None)); 3];

/// What becomes of the senders of a door, where each of the first has its own allocator.
fn outcomes_within<'a, D: Door, R: Threads + Wait + Clock + Sync>(
    rt: &R,
    shared: &'a RefusingAllocator<Global>,
    own: &[&'a RefusingAllocator<Global>],
    door: &mut D,
) -> Result<
    Vec<Outcome<D::Feed, &'a RefusingAllocator<Global>>, &'a RefusingAllocator<Global>>,
    Fail,
>
where
    D::Feed: Send + Drop,
    requires { (D.seen door.old).refusals ≤ 2 ^ 32 }
{
    let collector = Collector {
        rt,
        gate: &OpenGate,
        heaps: Heaps { shared, own },
        options: Options::usual(),
    };
    Ok(collector.collect(door)?)
}

/// Does what [`outcomes_within`] does, where the lines are printed as they come.
fn printed_within<'a, D: Door, R: Threads + Wait + Clock + Sync>(
    rt: &R,
    shared: &'a RefusingAllocator<Global>,
    own: &[&'a RefusingAllocator<Global>],
    door: &mut D,
    text: &mut Vec<u8>,
) -> Result<
    Vec<Outcome<D::Feed, &'a RefusingAllocator<Global>>, &'a RefusingAllocator<Global>>,
    Fail,
>
where
    D::Feed: Send + Drop,
    requires { (D.seen door.old).refusals ≤ 2 ^ 32 }
{
    let collector = Collector {
        rt,
        gate: &OpenGate,
        heaps: Heaps { shared, own },
        options: Options::usual(),
    };
    let live = collector.collect_live(door, text)?;
    live.wrote?;
    Ok(live.outcomes)
}

/// Does what [`outcomes_within`] does, but a sender that comes alone is checked on this thread.
fn outcomes_openly<'a, D: Door, R: Threads + Wait + Clock + Sync>(
    rt: &R,
    shared: &'a RefusingAllocator<Global>,
    own: &[&'a RefusingAllocator<Global>],
    door: &mut D,
) -> Result<
    Vec<Outcome<D::Feed, &'a RefusingAllocator<Global>>, &'a RefusingAllocator<Global>>,
    Fail,
>
where
    D::Feed: Send + Drop,
    requires { (D.seen door.old).refusals ≤ 2 ^ 32 }
{
    let collector = Collector {
        rt,
        gate: &OpenGate,
        heaps: Heaps { shared, own },
        options: Options::usual(),
    };
    Ok(collector.collect_openly(door)?.0)
}

/// Does what [`outcomes_openly`] does, where the lines are printed as they come.
fn printed_openly<'a, D: Door, R: Threads + Wait + Clock + Sync>(
    rt: &R,
    shared: &'a RefusingAllocator<Global>,
    own: &[&'a RefusingAllocator<Global>],
    door: &mut D,
    text: &mut Vec<u8>,
) -> Result<
    Vec<Outcome<D::Feed, &'a RefusingAllocator<Global>>, &'a RefusingAllocator<Global>>,
    Fail,
>
where
    D::Feed: Send + Drop,
    requires { (D.seen door.old).refusals ≤ 2 ^ 32 }
{
    let collector = Collector {
        rt,
        gate: &OpenGate,
        heaps: Heaps { shared, own },
        options: Options::usual(),
    };
    let (live, _) = collector.collect_live_openly(door, text)?;
    live.wrote?;
    Ok(live.outcomes)
}

/// Asserts that a sender ran out of memory if it was short of it, and was settled else.
fn expect_short<A: Allocator + Copy>(
    rt: &impl Abort,
    outcome: &Outcome<MemFeed, A>,
    is_short: bool,
) {
    match outcome {
        Outcome::NoMemory {
            end,
            checked,
            reports,
            ..
        } => {
            assert!(rt; is_short);
            expect_eq(rt, (end.fate, end.events, *checked), (Fate::Closed, 2, 0));
            assert!(rt; reports.is_empty());
        }
        Outcome::Settled { end, reports, .. } => {
            assert!(rt; !is_short);
            expect_eq(rt, (end.fate, end.events), (Fate::Closed, 2));
            expect_eq(rt, reports.len(), 1);
        }
        _ => panic!(rt; "the sender was not read"),
    }
}

/// Asserts that of three outcomes the one of this number alone ran out of memory.
fn expect_one_short<A: Allocator + Copy>(
    rt: &impl Abort,
    outcomes: &[Outcome<MemFeed, A>],
    short: usize,
) {
    expect_eq(rt, outcomes.len(), 3);
    for (sender, outcome) in outcomes.iter().enumerate() {
        expect_short(rt, outcome, sender == short);
    }
}

/// Lets one of three senders run out of memory, and no other, where their lines may be printed as
/// they come.
fn expect_memory_runs_out<R: Threads + Wait + Clock + Sync + Abort>(
    rt: &R,
    alloc: Global,
    short: usize,
    is_live: bool,
) -> Result<(), Fail> {
    let ample = RefusingAllocator::counting(alloc);
    let little = RefusingAllocator::with_bound(alloc, 100);
    let shared = RefusingAllocator::counting(alloc);
    let mut own = Vec::new(alloc);
    for sender in 0..3 {
        own.push(if sender == short { &little } else { &ample })?;
    }
    let mut door = Listed::new(alloc, &THREE_OF_A_KIND);
    let mut text = Vec::new(alloc);
    let outcomes = if is_live {
        printed_within(rt, &shared, &own, &mut door, &mut text)?
    } else {
        outcomes_within(rt, &shared, &own, &mut door)?
    };
    expect_one_short(rt, &outcomes, short);
    // The reports are held until the outcomes are let go.
    assert!(rt; ample.held() > 0);
    drop(outcomes);
    expect_eq(rt, (ample.held(), little.held(), shared.held()), (0, 0, 0));
    Ok(())
}

#[test]
fn memory_runs_out_for_one_sender(rt: HostRuntime) -> Result<(), Fail> {
    for short in 0..3 {
        expect_memory_runs_out(&rt, rt.alloc(), short, false)?;
        expect_memory_runs_out(&rt, rt.alloc(), short, true)?;
    }
    Ok(())
}

#[test]
fn a_sender_alone_has_the_first_memory(rt: HostRuntime) -> Result<(), Fail> {
    let ample = RefusingAllocator::counting(rt.alloc());
    let little = RefusingAllocator::with_bound(rt.alloc(), 100);
    let mut door = Listed::new(rt.alloc(), &THREE_OF_A_KIND[..1]);
    let outcomes = outcomes_openly(&rt, &ample, &[&little, &ample], &mut door)?;
    expect_eq(&rt, outcomes.len(), 1);
    for outcome in &outcomes {
        expect_short(&rt, outcome, true);
    }
    Ok(())
}

/// The checker of the only sender has no memory at all, and its end line goes out.
#[test]
fn a_sender_alone_is_printed_with_the_shared_memory(rt: HostRuntime) -> Result<(), Fail> {
    let ample = RefusingAllocator::counting(rt.alloc());
    let none = RefusingAllocator::with_bound(rt.alloc(), 0);
    let mut door = Listed::new(rt.alloc(), &THREE_OF_A_KIND[..1]);
    let mut text = Vec::new(rt.alloc());
    let outcomes = printed_openly(&rt, &ample, &[&none], &mut door, &mut text)?;
    expect_eq(&rt, outcomes.len(), 1);
    for outcome in &outcomes {
        expect_short(&rt, outcome, true);
    }
    let text = String::from_utf8(text)?;
    expect_eq(&rt, text.as_str(), "p0 end no-memory checked 0 reports 0\n");
    Ok(())
}

/// Asserts that each outcome has one report.
fn expect_a_report_each<A: Allocator + Copy>(rt: &impl Abort, outcomes: &[Outcome<MemFeed, A>]) {
    for outcome in outcomes {
        expect_eq(rt, outcome.reports().len(), 1);
    }
}

#[test]
fn senders_past_the_list_share_the_memory(rt: HostRuntime) -> Result<(), Fail> {
    let own = RefusingAllocator::counting(rt.alloc());
    let shared = RefusingAllocator::counting(rt.alloc());
    let mut door = Listed::new(rt.alloc(), &THREE_OF_A_KIND);
    let outcomes = outcomes_within(&rt, &shared, &[&own], &mut door)?;
    expect_a_report_each(&rt, &outcomes);
    let of_one = own.held();
    assert!(rt; of_one > 0);
    assert!(rt; shared.held() > of_one);
    Ok(())
}

/// Asserts that each of these was asked for memory as often as each other.
fn expect_same_requests(rt: &impl Abort, heaps: &[RefusingAllocator<Global>]) {
    let requests = heaps.first().map_or(0, |heap| heap.requests_made());
    assert!(rt; requests > 0);
    for (sender, heap) in heaps.iter().enumerate() {
        expect_eq_at(rt, sender, heap.requests_made(), requests);
    }
}

#[test]
fn each_sender_has_its_own_memory(rt: HostRuntime) -> Result<(), Fail> {
    let mut heaps = Vec::new(rt.alloc());
    for _ in 0..MAX_SENDERS {
        heaps.push(RefusingAllocator::counting(rt.alloc()))?;
    }
    let own = heaps.iter().collect::<Vec<_>>(rt.alloc())?;
    let shared = RefusingAllocator::counting(rt.alloc());
    let mut door = misses(rt.alloc(), MAX_SENDERS as u32);
    let outcomes = outcomes_within(&rt, &shared, &own, &mut door)?;
    expect_eq(&rt, outcomes.len(), MAX_SENDERS);
    // All senders send the same, so that their checkers ask for the same.
    expect_same_requests(&rt, &heaps);
    Ok(())
}

/// Options with this bound on memory, and unusual others.
fn bounded(bytes: u64) -> Result<Options, BadOption> {
    Options::new(0, 1, 3, 7)?.with_memory(bytes)
}

#[test]
fn bounds_of_memory(rt: HostRuntime) -> Result<(), Fail> {
    let usual = Options::usual();
    expect_eq(&rt, usual.memory, None);
    for bytes in [0, (1 << 20) - 1, (1 << 40) + 1, u64::MAX] {
        expect_eq(&rt, usual.with_memory(bytes).err(), Some(BadOption::Memory));
    }
    for bytes in [1 << 20, 1 << 26, 1 << 40] {
        let options = bounded(bytes)?;
        expect_eq(&rt, (options.quarantine, options.ring), (0, 1));
        expect_eq(&rt, (options.workers, options.limit), (3, 7));
        expect_eq(&rt, options.memory, Some(bytes));
    }
    Ok(())
}
