//! What was begun with the benches of a worker, and what that is to their senders.

ghost use Rattle.std.specs.Prelude.{◌<◌, vec_len};
ghost use Rattle.asan_senders.specs.Shares.{GivesUp, EachGivesUp, HaveWorked};

use crate::missing::Part;
use crate::sender::Sender;
use asan_stream::Bench;
use std::alloc::Allocator;
use std::snapshot::Snapshot;
use std::thread::{Promise, PromisedHandle};
use trace_feed::Feed;

/// What a worker was given.
#[derive(Drop)]
pub struct Working<A: Allocator + Copy> {
    pub benches: Snapshot<Vec<Bench<A>, A>>,
}

impl<A: Allocator + Copy> Promise<Vec<Bench<A>, A>> for Working<A> {
    ghost kept_by = { λ p r. HaveWorked p.benches.value.items r.items };
}

/// What was begun with the benches of a worker.
#[derive(Drop)]
pub enum WorkerThread<A: Allocator + Copy> {
    /// There are none, and no thread.
    Idle(Vec<Bench<A>, A>),
    /// The worker runs.
    Running(PromisedHandle<Vec<Bench<A>, A>, Working<A>>),
    /// No thread could be made, and the benches are gone.
    Lost,
}

/// A sender that is ready gets no reader.
fn give_up<F: Feed + Drop, A: Allocator + Copy>(sender: &mut Sender<F, A>)
    ensures { GivesUp sender.old sender.new }
{
    if let Sender::Ready(_, _) = sender {
        *sender = Sender::NotStarted(Part::Worker);
    }
}

/// Where a worker could not be started, its senders get no reader: those whose number has the
/// worker's as its remainder. All others stay as they are.
pub fn give_up_senders<F: Feed + Drop, A: Allocator + Copy>(
    senders: &mut Vec<Sender<F, A>, A>,
    workers: &Vec<WorkerThread<A>, A>,
)
    requires { 0 < vec_len workers.now }
    ensures { EachGivesUp workers.now.items senders.old.items senders.new.items }
{
    for i in 0..senders.len() {
        if let WorkerThread::Lost = &workers[i % workers.len()] {
            give_up(&mut senders[i]);
        }
    }
}
