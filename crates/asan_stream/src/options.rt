//! The options of a check.

ghost use Rattle.std.specs.Prelude.{◌≡◌, ◌<◌, ◌≤◌, IfErr, IfOk, IsTrue, MatchResult, None};
ghost use Rattle.std.specs.Prelude.{Some, is_ok};
ghost use Rattle.asan_units.specs.Units.{largest_quarantine};
ghost use Rattle.asan_stream.specs.Ranges.{most_ring, most_workers, most_events};
ghost use Rattle.asan_stream.specs.BadOptions.{is_in_range};
ghost use Rattle.asan_stream.specs.Ranges.{usual_quarantine, usual_ring, usual_workers};
ghost use Rattle.asan_stream.specs.Ranges.{usual_limit};

use asan_units::MAX_QUARANTINE;
use thiserror::Error;
use trace_lane::MAX_ITEMS;
use trace_record::MAX_LIMIT;

/// The most items that a ring may hold.
pub const MAX_RING: u32 = MAX_ITEMS as u32;

/// The most workers that one call may have.
pub const MAX_WORKERS: u32 = 64;

/// The greatest event limit, which is the most events of one stream.
pub const MAX_EVENTS: u32 = MAX_LIMIT;

/// The least bound on the memory of a sender's checker, in bytes.
pub const MIN_MEMORY: u64 = 1 << 20;

/// The greatest bound on the memory of a sender's checker, in bytes.
pub const MAX_MEMORY: u64 = 1 << 40;

/// How many bytes of spans a quarantine holds by default.
const DEFAULT_QUARANTINE: u64 = 1 << 28;

/// How many items a ring holds by default.
const DEFAULT_RING: u32 = 1024;

/// How many workers there are by default.
const DEFAULT_WORKERS: u32 = 2;

/// How streams are checked. Each option is in its range, which the type keeps.
#[derive(Clone, Copy, Debug)]
pub struct Options {
    /// How many bytes of freed spans the quarantine of each process holds, 0 to 2^40.
    pub quarantine: u64,
    /// How many items the ring between a reader and its checker holds, 1 to 65,536.
    pub ring: u32,
    /// How many workers there are, 1 to 64.
    pub workers: u32,
    /// How many events a stream may have, 1 to 2^24.
    pub limit: u32,
    /// How many bytes the checker of each process may hold, 2^20 to 2^40, or `None` for no bound. A
    /// bound is kept by the allocators that the collector of many streams is given.
    pub memory: Option<u64>,
    pub ghost quarantine_in_range: { quarantine ≤ largest_quarantine },
    pub ghost some_ring: { 0 < ring },
    pub ghost ring_in_range: { ring ≤ most_ring },
    pub ghost some_worker: { 0 < workers },
    pub ghost workers_in_range: { workers ≤ most_workers },
    pub ghost some_event: { 0 < limit },
    pub ghost limit_in_range: { limit ≤ most_events },
    pub ghost memory_in_range: { IsTrue (is_in_range memory) },
}

/// An option that is out of its range.
#[derive(Clone, Copy, Debug, PartialEq, Eq, Error)]
pub enum BadOption {
    /// The quarantine is over 2^40 bytes.
    #[error("the quarantine is over 2^40 bytes")]
    Quarantine = 1,
    /// The ring has no item, or more than 65,536.
    #[error("the ring is not of 1 to 65,536 items")]
    Ring,
    /// There is no worker, or more than 64.
    #[error("the workers are not 1 to 64")]
    Workers,
    /// The event limit is 0, or over 2^24.
    #[error("the event limit is not 1 to 2^24")]
    Limit,
    /// The bound on a checker's memory is below 2^20 bytes, or over 2^40.
    #[error("the memory is not 2^20 to 2^40 bytes")]
    Memory,
}

impl Options {
    ghost use Rattle.asan_stream.specs.BadOptions.{bad_option_of, is_memory_bound};

    /// These options, each in its range, and no bound on memory.
    ///
    /// # Errors
    ///
    /// The first option, in the order of the arguments, that is out of its range.
    pub fn new(quarantine: u64, ring: u32, workers: u32, limit: u32) -> Result<Options, BadOption>
        ensures each { MatchResult result
            (λ o. (o.quarantine ≡ quarantine) × (o.ring ≡ ring)
            × (o.workers ≡ workers) × (o.limit ≡ limit))
            (λ bad. bad_option_of quarantine ring workers limit ≡ Some bad) }
        ensures unbounded { IfOk result (λ o. o.memory ≡ None) }
    {
        if quarantine > MAX_QUARANTINE {
            return Err(BadOption::Quarantine);
        }
        if !(1..=MAX_RING).contains(&ring) {
            return Err(BadOption::Ring);
        }
        if !(1..=MAX_WORKERS).contains(&workers) {
            return Err(BadOption::Workers);
        }
        if !(1..=MAX_EVENTS).contains(&limit) {
            return Err(BadOption::Limit);
        }
        Ok(Options {
            quarantine,
            ring,
            workers,
            limit,
            memory: None,
        })
    }

    /// The defaults: a quarantine of 2^28 bytes, rings of 1,024 items, 2 workers, at most 2^24
    /// events, and no bound on memory.
    pub fn usual() -> Options
        ensures quarantine { result.quarantine ≡ usual_quarantine }
        ensures ring { result.ring ≡ usual_ring }
        ensures workers { result.workers ≡ usual_workers }
        ensures limit { result.limit ≡ usual_limit }
        ensures memory { result.memory ≡ None }
    {
        Options {
            quarantine: DEFAULT_QUARANTINE,
            ring: DEFAULT_RING,
            workers: DEFAULT_WORKERS,
            limit: MAX_EVENTS,
            memory: None,
        }
    }

    /// These options, but the checker of each process may hold at most this many bytes.
    ///
    /// # Errors
    ///
    /// `Memory` where the bound is below 2^20 or over 2^40.
    pub fn with_memory(self, bytes: u64) -> Result<Options, BadOption>
        ensures memory { IfOk result (λ o. o.memory ≡ Some bytes) }
        ensures others { IfOk result (λ o. (o.quarantine ≡ self.quarantine) × (o.ring ≡ self.ring)
            × (o.workers ≡ self.workers) × (o.limit ≡ self.limit)) }
        ensures range { is_ok result ≡ is_memory_bound bytes }
        ensures bad { IfErr result (λ bad. bad ≡ BadOption.Memory) }
    {
        if !(MIN_MEMORY..=MAX_MEMORY).contains(&bytes) {
            return Err(BadOption::Memory);
        }
        Ok(Options {
            quarantine: self.quarantine,
            ring: self.ring,
            workers: self.workers,
            limit: self.limit,
            memory: Some(bytes),
        })
    }
}
