//! A lane and a bench for each sender, and the share of the benches that each worker gets.

ghost use Rattle.std.specs.Prelude.{◌≡◌, ◌<◌, ◌≤◌, ◌%◌, [], All, IfOk, IfSome, None, length};
ghost use Rattle.std.specs.Prelude.{vec_len};
ghost use Rattle.asan_print.specs.Ports.{lane_at, taken_at};
ghost use Rattle.asan_senders.specs.Arrivals.{IsArrived, Pairwise};
ghost use Rattle.asan_stream.specs.Benches.{lane_of, process_of, bench_bound, report_lane_of};
ghost use Rattle.asan_stream.specs.Outboxes.{KeepsLane};
ghost use Rattle.asan_stream.specs.Ranges.{most_workers};
ghost use Rattle.asan_senders.specs.Ranges.{most_senders};
ghost use Rattle.asan_senders.specs.ReportLanes.{AllFit, AreEmptySeats, Fits, HasPort, NoneTaken};
ghost use Rattle.asan_senders.specs.ReportLanes.{SharesHave, lanes_of};
ghost use Rattle.asan_senders.specs.Senders.{AllFresh, Came, HasLane, HasRing, IsFresh, IsSeated};
ghost use Rattle.asan_senders.specs.Shares.{AreEmpty, Deals, HasRoom, HaveSeats, SharesAt};

use crate::NoMemory;
use crate::arrivals::MAX_SENDERS;
use crate::heaps::Heaps;
use crate::missing::Part;
use crate::sender::Sender;
use asan_check::Checker;
use asan_print::Port;
use asan_stream::{Bench, Options};
use std::alloc::Allocator;
use std::mem;
use trace_feed::{Arrival, Feed};
use trace_lane::lane;

/// An empty share for each worker, with room for all benches that it gets.
pub(crate) fn no_shares<A: Allocator + Copy>(
    alloc: A,
    workers: usize,
) -> Result<Vec<Vec<Bench<A>, A>, A>, NoMemory>
    requires some { 0 < workers }
    requires few { workers ≤ most_workers }
    ensures { IfOk result (λ shares. (vec_len shares ≡ workers) × AreEmpty workers shares.items) }
{
    let room = MAX_SENDERS / workers + 1;
    let mut shares = Vec::with_capacity(alloc, workers)?;
    for _ in 0..workers {
        let share = Vec::with_capacity(alloc, room)?;
        shares.push_reserved(share);
    }
    Ok(shares)
}

/// What there is for a sender at the start.
#[derive(Drop)]
struct Seat<F: Feed, A: Allocator + Copy> {
    sender: Sender<F, A>,
    bench: Option<Bench<A>>,
    /// Where its reports are taken, if they are printed as they come.
    port: Option<Port<A>>,
}

impl<F: Feed, A: Allocator + Copy> Seat<F, A> {
    /// A sender that has no bench.
    fn without_bench(sender: Sender<F, A>) -> Seat<F, A>
        ensures sender { result.sender ≡ sender }
        ensures bench { result.bench ≡ None }
        ensures port { result.port ≡ None }
    {
        Seat {
            sender,
            bench: None,
            port: None,
        }
    }
}

/// A lane and a bench for a sender whose feed came, and a report lane too where the reports are
/// printed as they come.
fn open<F: Feed + Drop, A: Allocator + Copy>(
    heaps: &Heaps<'_, A>,
    arrival: Arrival<F>,
    process: u32,
    options: Options,
    is_live: bool,
) -> Seat<F, A>
    requires { IsArrived F.seen arrival }
    ensures came { Came F.seen options arrival result.sender }
    ensures fresh { IsFresh F.seen result.sender }
    ensures ring { HasRing options.ring result.sender }
    ensures bench { IfSome result.bench (λ b. (process_of b ≡ process)
        × (bench_bound b ≡ options.quarantine)
        × HasLane result.sender (lane_of b)) }
    ensures report_lane { IfSome result.bench (λ b.
        KeepsLane (lane_at result.port) (report_lane_of b)) }
    ensures same_lane { IfSome result.bench (λ b. report_lane_of b ≡ lane_at result.port) }
    ensures seated { IsSeated result.sender result.bench }
    ensures port { HasPort is_live result.sender result.port }
    ensures fits { Fits (lane_at result.port) result.sender }
    ensures untaken { taken_at result.port ≡ [] }
{
    let feed = match arrival {
        Arrival::Came(feed) => feed,
        Arrival::Refused => return Seat::without_bench(Sender::NotOpened),
        Arrival::Over => unreachable!(),
    };
    let alloc = heaps.shared;
    let Ok((into, out)) = lane(alloc, options.ring as usize) else {
        return Seat::without_bench(Sender::NotStarted(Part::Lane));
    };
    let own = heaps.of_checker(process as usize);
    let checker = Checker::new(own, options.quarantine).unwrap();
    if !is_live {
        return Seat {
            sender: Sender::Ready(feed, into),
            bench: Some(Bench::new(process, out, checker)),
            port: None,
        };
    }
    let Ok((reports, taken)) = lane(alloc, options.ring as usize) else {
        return Seat::without_bench(Sender::NotStarted(Part::Lane));
    };
    Seat {
        sender: Sender::Ready(feed, into),
        bench: Some(Bench::with_reports(process, out, checker, reports)),
        port: Some(Port::new(taken)),
    }
}

/// The bench of this process goes to its worker, which has room for it.
fn deal<A: Allocator + Copy>(shares: &mut Vec<Vec<Bench<A>, A>, A>, process: usize, bench: Bench<A>)
    requires room { HasRoom (vec_len shares.old) process shares.old.items }
    requires few { process < most_senders }
    ensures { Deals (process % vec_len shares.old) bench shares.old.items shares.new.items }
{
    let at = process % shares.len();
    shares[at].push_reserved(bench);
}

/// What there is for all senders at the start.
#[derive(Drop)]
pub struct Seats<F: Feed, A: Allocator + Copy> {
    pub senders: Vec<Sender<F, A>, A>,
    /// The benches of each worker.
    pub shares: Vec<Vec<Bench<A>, A>, A>,
    /// For each sender where its reports are taken, if they are printed as they come.
    pub ports: Vec<Option<Port<A>>, A>,
}

impl<F: Feed + Drop, A: Allocator + Copy> Seats<F, A> {
    /// Room for 256 senders, and no sender yet.
    pub fn new(alloc: A, options: Options) -> Result<Seats<F, A>, NoMemory>
        ensures empty { IfOk result AreEmptySeats }
        ensures workers { IfOk result (λ seats. vec_len seats.shares ≡ options.workers) }
    {
        let senders = Vec::with_capacity(alloc, MAX_SENDERS)?;
        let shares = no_shares(alloc, options.workers as usize)?;
        let ports = Vec::with_capacity(alloc, MAX_SENDERS)?;
        Ok(Seats {
            senders,
            shares,
            ports,
        })
    }
}

/// Each arrival becomes a sender, and the benches of those that came are dealt out to the workers
/// in turn. Where the reports are printed as they come, each bench has a report lane.
pub fn open_all<F: Feed + Drop, A: Allocator + Copy>(
    heaps: &Heaps<'_, A>,
    arrivals: Vec<Arrival<F>, A>,
    seats: Seats<F, A>,
    options: Options,
    is_live: bool,
) -> Seats<F, A>
    requires arrived { All (IsArrived F.seen) arrivals.items }
    requires few { length arrivals.items ≤ most_senders }
    requires empty { AreEmptySeats seats }
    ensures came { Pairwise (Came F.seen options) arrivals.items result.senders.items }
    ensures fresh { AllFresh F.seen result.senders.items }
    ensures shares { SharesAt options.quarantine result.senders.items result.shares.items }
    ensures same { vec_len result.shares ≡ vec_len seats.shares }
    ensures seated { HaveSeats result.senders.items result.shares.items }
    ensures rings { All (HasRing options.ring) result.senders.items }
    ensures ports { length result.ports.items ≡ length result.senders.items }
    ensures live { Pairwise (HasPort is_live) result.senders.items result.ports.items }
    ensures untaken { NoneTaken result.ports.items }
    ensures fits { AllFit (lanes_of result.ports.items) result.senders.items }
    ensures have { SharesHave (lanes_of result.ports.items) result.shares.items }
{
    let mut arrivals = arrivals;
    let Seats {
        mut senders,
        mut shares,
        mut ports,
    } = seats;
    for i in 0..arrivals.len() {
        let arrival = mem::replace(&mut arrivals[i], Arrival::Refused);
        let seat = open(heaps, arrival, i as u32, options, is_live);
        let Seat {
            sender,
            bench,
            port,
        } = seat;
        senders.push_reserved(sender);
        ports.push_reserved(port);
        if let Some(bench) = bench {
            deal(&mut shares, i, bench);
        }
    }
    Seats {
        senders,
        shares,
        ports,
    }
}
