//! An allocator that refuses: it passes each request on to another allocator, but for those that
//! its rule refuses. It counts the requests, the bytes that they ask for, and the bytes that it
//! holds.
#![tactic(auto)]

mod account;
#[cfg(test)]
mod tests;

ghost use Rattle.std.specs.Prelude.{◌≡◌, Some, false};
ghost use Rattle.refusing_allocator.specs.Rules.{bound_of, inner_of, turn_of};

use account::{Account, Rule};
use std::alloc::{AllocError, Allocator};

/// A handle on the allocator `inner` that refuses by a rule, which its constructor says: each
/// request past a bound on what it holds, or one request by its number, or none.
///
/// A request is a call of `allocate`. A block counts with the size that was asked for, from its
/// request until it is given back. A growth or a shrink of a collection asks for its new block
/// before it gives the old one back, so both count meanwhile: `grow` and `shrink` are the trait's
/// own. What `inner` itself adds to a block isn't counted. A request that was refused, here or by
/// `inner`, leaves the bytes held as they were, and others may follow it.
///
/// A collection takes it by `&`, and so do several that are to share it, also on several threads.
/// It is proved that a block has the room that was asked for, that the right to free it is
/// `inner`'s, that `inner` gets it back with its own size and alignment, and that the account
/// refuses each request that is greater than a whole bound. No contract says what is counted beside
/// it, or which request has a number, since another thread may make one at any time: tests show
/// that no request passes the bound, that one within it is granted, and that only the request with
/// the number is refused, on one thread and on two.
pub struct RefusingAllocator<B: Allocator> {
    inner: B,
    account: Account,
}

impl<B: Allocator> RefusingAllocator<B> {
    /// Refuses each request that would take it past `bound` bytes held at a time. Nothing is held
    /// yet. Takes no memory.
    pub fn with_bound(inner: B, bound: u64) -> RefusingAllocator<B>
        ensures inner { inner_of result ≡ inner }
        ensures bound { bound_of result ≡ Some bound }
    {
        RefusingAllocator {
            inner,
            account: Account::new(Rule::PastBound(bound)),
        }
    }

    /// Refuses the request whose number is `turn`, counted from 1, or none where `turn` is 0.
    /// Requests after it are passed on again, so that a test sees what a refused growth leaves.
    /// Takes no memory.
    pub fn at_turn(inner: B, turn: u64) -> RefusingAllocator<B>
        ensures inner { inner_of result ≡ inner }
        ensures turn { turn_of result ≡ Some turn }
    {
        RefusingAllocator {
            inner,
            account: Account::new(Rule::AtTurn(turn)),
        }
    }

    /// Refuses no request, and only counts them. Takes no memory.
    pub fn counting(inner: B) -> RefusingAllocator<B>
        ensures inner { inner_of result ≡ inner }
        ensures turn { turn_of result ≡ Some 0 }
    {
        RefusingAllocator::at_turn(inner, 0)
    }

    /// How many bytes it may hold at a time, where that is bounded.
    pub fn bound(&self) -> Option<u64>
        ensures { result ≡ bound_of self.now }
    {
        self.account.bound()
    }

    /// Whether it refused a request. One that `inner` refused doesn't count.
    pub fn has_refused(&self) -> bool
        ensures none { turn_of self.now ≡ Some 0 → result ≡ false }
    {
        self.account.has_refused()
    }

    /// How many requests were made, a refused one too. No clause says the number: another thread
    /// may make one at any time. The same holds of the two numbers below.
    pub fn requests_made(&self) -> u64 {
        self.account.requests_made()
    }

    /// How many bytes all these requests asked for. What was given back since is not taken off.
    pub fn bytes_asked(&self) -> u64 {
        self.account.bytes_asked()
    }

    /// How many bytes it holds.
    pub fn held(&self) -> u64 {
        self.account.held()
    }
}

impl<B: Allocator> Drop for RefusingAllocator<B> {
    fn drop(self) {
        let Self {
            inner: _,
            account: _,
        } = self;
    }
}

unsafe impl<B: Allocator> Allocator for RefusingAllocator<B> {
    ghost dealloc_token = { λ heap ty ptr. B.dealloc_token heap.inner ty ptr };

    fn allocate(&self, size: usize, align: usize) -> Result<*mut u8, AllocError> {
        if self.account.refuses(size) {
            return Err(AllocError);
        }
        match self.inner.allocate(size, align) {
            Ok(block) => Ok(block),
            Err(error) => {
                self.account.give_back(size);
                Err(error)
            }
        }
    }

    unsafe fn deallocate(&self, ptr: *mut u8, size: usize, align: usize) {
        self.inner.deallocate(ptr, size, align);
        self.account.give_back(size);
    }
}
