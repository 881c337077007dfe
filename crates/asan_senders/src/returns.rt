//! The benches come back to their senders, and each sender is settled.

ghost use Rattle.std.specs.Prelude.{◌≡◌, ◌≤◌, [], ℕ, All, IfSome, None, Option, Some};
ghost use Rattle.std.specs.Prelude.{vec_len, vec_capacity};
ghost use Rattle.trace_lane.specs.Lanes.{Lane};
ghost use Rattle.asan_print.specs.Ports.{port_lane, taken_at};
ghost use Rattle.asan_senders.specs.Arrivals.{Pairwise};
ghost use Rattle.asan_stream.specs.declared.bench.Bench.{Bench as ABench};
ghost use Rattle.asan_stream.specs.Benches.{lane_of, bench_bound, report_lane_of};
ghost use Rattle.asan_senders.specs.Closings.{WerePrinted};
ghost use Rattle.asan_stream.specs.Outboxes.{KeepsLane};
ghost use Rattle.asan_senders.specs.ReportLanes.{AllFit, AllHave, Fits, SharesHave};
ghost use Rattle.asan_senders.specs.Senders.{AllJoined, AreAt, Each, Gets, HasBench, HasLane};
ghost use Rattle.asan_senders.specs.Senders.{IsBack, IsJoined, Rejoins, SaysHowFar};
ghost use Rattle.asan_senders.specs.Senders.{StaysOrJoins, TakesBack};
ghost use Rattle.asan_senders.specs.Shares.{AreBack, SharesAt};

use crate::sender::Sender;
use asan_check::Report;
use asan_print::Port;
use asan_stream::{Bench, Outcome, ReaderDone, settle};
use std::alloc::Allocator;
use std::mem;
use trace_feed::Feed;
use trace_lane::LaneEnd;

/// A bench comes back to its sender, and ends its report lane. It is dropped where the sender had
/// no reader.
fn rejoin<F: Feed + Drop, A: Allocator + Copy>(
    sender: Sender<F, A>,
    bench: Bench<A>,
) -> Sender<F, A>
    requires { HasLane sender (lane_of bench) }
    ensures rejoins { Rejoins F.seen (bench_bound bench) sender result }
    ensures back { HasBench result }
    ensures takes { TakesBack bench sender result }
    ensures fits { (lane : Option (Lane A)) → Fits lane sender →
        KeepsLane lane (report_lane_of bench) → Fits lane result }
{
    let mut bench = bench;
    match sender {
        Sender::Read(done) => {
            let reports = bench.finish_reports();
            Sender::Joined(done, bench, reports)
        }
        other => other,
    }
}

/// A bench comes back to the sender at this place.
fn rejoin_at<F: Feed + Drop, A: Allocator + Copy>(sender: &mut Sender<F, A>, bench: Bench<A>)
    requires { HasLane sender.old (lane_of bench) }
    ensures rejoins { Rejoins F.seen (bench_bound bench) sender.old sender.new }
    ensures back { HasBench sender.new }
    ensures takes { TakesBack bench sender.old sender.new }
    ensures fits { (lane : Option (Lane A)) → Fits lane sender.old →
        KeepsLane lane (report_lane_of bench) → Fits lane sender.new }
{
    let was = mem::replace(sender, Sender::NotOpened);
    let _ = mem::replace(sender, rejoin(was, bench));
}

/// These benches come back to their senders.
pub(crate) fn place<F: Feed + Drop, A: Allocator + Copy>(
    senders: &mut Vec<Sender<F, A>, A>,
    benches: Vec<Bench<A>, A>,
    bound: u64,
)
    requires { AreAt bound senders.old.items benches.items }
    ensures rejoins { Each (Rejoins F.seen bound) senders.old.items senders.new.items }
    ensures takes { Each StaysOrJoins senders.old.items senders.new.items }
    ensures fit { (lanes : ℕ → Option (Lane A)) → AllFit lanes senders.old.items →
        AllHave lanes benches.items → AllFit lanes senders.new.items }
    ensures back { All (IsBack senders.new.items) benches.items }
    ensures stays { (bench : ABench A) →
        IsBack senders.old.items bench → IsBack senders.new.items bench }
{
    let mut benches = benches;
    while let Some(bench) = benches.pop() {
        let at = bench.process() as usize;
        rejoin_at(&mut senders[at], bench);
    }
}

/// The benches of all workers come back to their senders.
pub fn place_all<F: Feed + Drop, A: Allocator + Copy>(
    senders: &mut Vec<Sender<F, A>, A>,
    shares: Vec<Vec<Bench<A>, A>, A>,
    bound: u64,
)
    requires { SharesAt bound senders.old.items shares.items }
    ensures rejoins { Each (Rejoins F.seen bound) senders.old.items senders.new.items }
    ensures takes { Each StaysOrJoins senders.old.items senders.new.items }
    ensures fit { (lanes : ℕ → Option (Lane A)) → AllFit lanes senders.old.items →
        SharesHave lanes shares.items → AllFit lanes senders.new.items }
    ensures back { AreBack senders.new.items shares.items }
{
    let mut shares = shares;
    while let Some(share) = shares.pop() {
        place(senders, share, bound);
    }
}

/// What became of a sender, and how many of its reports were printed before.
#[derive(Drop)]
pub(crate) struct Answer<F, A: Allocator + Copy> {
    pub outcome: Outcome<F, A>,
    pub printed: u64,
}

impl<F, A: Allocator + Copy> Answer<F, A> {
    /// What became of a sender whose reports are not in its outcome.
    fn without_reports(outcome: Outcome<F, A>) -> Answer<F, A>
        ensures outcome { result.outcome ≡ outcome }
        ensures printed { result.printed ≡ 0 }
    {
        Answer {
            outcome,
            printed: 0,
        }
    }
}

/// What became of a sender whose bench is back, and whose reports were printed from this port, if
/// they were. It is `Unsettled` where its lane has no end, and where they were and its report lane
/// has none.
fn settle_joined<F: Feed + Drop, A: Allocator + Copy>(
    done: ReaderDone<F, A>,
    bench: Bench<A>,
    reports: Option<LaneEnd<Report, A>>,
    port: Option<Port<A>>,
) -> Answer<F, A>
    requires joined { IsJoined (Sender.Joined done bench reports) }
    requires port { IfSome port (λ p.
        Fits (Some (port_lane p)) (Sender.Joined done bench reports)) }
    ensures outcome { Gets F.seen (Sender.Joined done bench reports) result.outcome }
    ensures far { SaysHowFar port (Sender.Joined done bench reports) result.outcome }
    ensures printed { WerePrinted (taken_at port) result.printed result.outcome }
{
    let printed = match (port, reports) {
        (None, _) => 0,
        (Some(port), Some(end)) => port.settle(end),
        (Some(_), None) => return Answer::without_reports(Outcome::Unsettled),
    };
    Answer {
        outcome: settle(bench, done),
        printed,
    }
}

/// What became of a sender, once the benches are back, whose reports were printed from this port,
/// if they were.
pub(crate) fn settle_sender<F: Feed + Drop, A: Allocator + Copy>(
    sender: Sender<F, A>,
    port: Option<Port<A>>,
) -> Answer<F, A>
    requires joined { IsJoined sender }
    requires port { IfSome port (λ p. Fits (Some (port_lane p)) sender) }
    ensures outcome { Gets F.seen sender result.outcome }
    ensures far { SaysHowFar port sender result.outcome }
    ensures printed { WerePrinted (taken_at port) result.printed result.outcome }
{
    match sender {
        Sender::NotOpened => Answer::without_reports(Outcome::NotOpened),
        Sender::NotStarted(_) | Sender::Ready(_, _) => Answer::without_reports(Outcome::NotStarted),
        Sender::Running(_) => unreachable!(),
        Sender::Read(_) => Answer::without_reports(Outcome::Unsettled),
        Sender::Joined(done, bench, reports) => settle_joined(done, bench, reports, port),
    }
}

/// What became of each sender, in order. There is room for all outcomes.
pub fn settle_all<F: Feed + Drop, A: Allocator + Copy>(
    senders: Vec<Sender<F, A>, A>,
    room: Vec<Outcome<F, A>, A>,
) -> Vec<Outcome<F, A>, A>
    requires empty { room.items ≡ [] }
    requires room { vec_len senders ≤ vec_capacity room }
    requires joined { AllJoined senders.items }
    ensures outcomes { Pairwise (Gets F.seen) senders.items result.items }
    ensures far { Pairwise (SaysHowFar None) senders.items result.items }
{
    let (mut senders, mut outcomes) = (senders, room);
    for i in 0..senders.len() {
        let sender = mem::replace(&mut senders[i], Sender::NotOpened);
        outcomes.push_reserved(settle_sender(sender, None).outcome);
    }
    outcomes
}
