//! The account of an allocator: what it is asked for, what it holds, and what it refuses.

ghost use Rattle.std.specs.Prelude.{◌≡◌, ◌<◌, ◌≤◌, IfSome, IsTrue, Some, false};
ghost use Rattle.refusing_allocator.specs.Rules.{bound_in, turn_in};

use std::sync::atomic::{AtomicBool, AtomicU64, Ordering};

/// Which requests are refused.
#[derive(Clone, Copy)]
pub enum Rule {
    /// Each that would take the bytes held past this bound.
    PastBound(u64),
    /// The one with this number, counted from 1. None where the number is 0.
    AtTurn(u64),
}

/// Counts the requests, the bytes that they ask for and the bytes that are held, and refuses by a
/// rule. Each count takes one step, so none is lost where several threads share the account.
#[derive(Drop)]
pub struct Account {
    rule: Rule,
    requests: AtomicU64,
    asked: AtomicU64,
    held: AtomicU64,
    refused: AtomicBool,
}

impl Account {
    /// No request was made yet, and no byte is held.
    pub fn new(rule: Rule) -> Account
        ensures { result.rule ≡ rule }
    {
        Account {
            rule,
            requests: AtomicU64::new(0),
            asked: AtomicU64::new(0),
            held: AtomicU64::new(0),
            refused: AtomicBool::new(false),
        }
    }

    /// How many bytes may be held, where the rule bounds them.
    pub fn bound(&self) -> Option<u64>
        ensures { result ≡ bound_in self.now.rule }
    {
        match self.rule {
            Rule::PastBound(bound) => Some(bound),
            Rule::AtTurn(_) => None,
        }
    }

    /// Counts one more request, of `size` bytes, and says whether it is refused. If it isn't, its
    /// bytes are held from now on.
    pub fn refuses(&self, size: usize) -> bool
        ensures past { IfSome (bound_in self.now.rule) (λ bound. bound < size → IsTrue result) }
    {
        let size = size as u64;
        self.asked.fetch_add(size, Ordering::SeqCst);
        let number = self.requests.fetch_add(1, Ordering::SeqCst).wrapping_add(1);
        let is_refused = match self.rule {
            Rule::PastBound(bound) => !self.holds(size, bound),
            Rule::AtTurn(turn) => number == turn || !self.holds(size, u64::MAX),
        };
        if is_refused {
            self.refused.store(true, Ordering::SeqCst);
        }
        is_refused
    }

    /// Whether `size` more bytes are within the bound. If so, they are held from now on.
    fn holds(&self, size: u64, bound: u64) -> bool
        ensures { IsTrue result → size ≤ bound }
    {
        self.held
            .fetch_update(Ordering::SeqCst, Ordering::SeqCst, |held| {
                held.checked_add(size).filter(|sum| *sum <= bound)
            })
            .is_ok()
    }

    /// These bytes are no longer held.
    pub fn give_back(&self, size: usize) {
        self.held.fetch_sub(size as u64, Ordering::SeqCst);
    }

    /// Whether a request was refused.
    pub fn has_refused(&self) -> bool
        ensures none { turn_in self.now.rule ≡ Some 0 → result ≡ false }
    {
        !matches!(self.rule, Rule::AtTurn(0)) && self.refused.load(Ordering::SeqCst)
    }

    /// How many requests were made, a refused one too.
    pub fn requests_made(&self) -> u64 {
        self.requests.load(Ordering::SeqCst)
    }

    /// How many bytes they asked for in all.
    pub fn bytes_asked(&self) -> u64 {
        self.asked.load(Ordering::SeqCst)
    }

    /// How many bytes are held.
    pub fn held(&self) -> u64 {
        self.held.load(Ordering::SeqCst)
    }
}
