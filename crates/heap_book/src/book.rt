//! The book of a process's blocks.
ghost use Rattle.std.specs.Prelude.{◌≡◌, ◌+◌, ◌<◌, ◌≤◌, ◌↔◌, [], length, true};
ghost use Rattle.std.specs.Prelude.{IsErr, IfOk, OnErr, IfSome, IfNone};
ghost use Rattle.std.specs.List.{IsDistinct, list_any};
ghost use Rattle.asan_units.specs.Units.{address_end, largest_quarantine};
ghost use Rattle.heap_book.specs.Spans.{Extent, held_of, may_be_admitted, meets, starts_at};
ghost use Rattle.heap_book.specs.Blocks.{taken_blocks, queued_bytes, SameBlocks, ReleasesOldest};
ghost use Rattle.heap_book.specs.Admit.{IsAdmitAnswer, AfterAdmit};
ghost use Rattle.heap_book.specs.Freed.{IsFreeAnswer, AfterFree};

use crate::NoMemory;
use crate::answers::{Admit, Bound, Freed};
use crate::block::Block;
use crate::free_span::is_free;
use asan_units::MAX_QUARANTINE;
use line_map::{LineMap, Slot};
use std::alloc::{Allocator, Global};
use std::collections::VecDeque;
use std::marker::Model;

/// How many blocks that are to be freed are read ahead at once, each with one that is to be let go.
pub const MAX_FETCHED: usize = line_map::MAX_FETCHED / 2;

/// The live blocks of a process and those in quarantine.
#[derive(Drop)]
pub struct Book<A: Allocator + Copy = Global> {
    /// The blocks that are live or in quarantine, by address.
    blocks: LineMap<A>,
    /// Those in quarantine, with the one that was freed first in front.
    queue: VecDeque<Block, A>,
    /// How many bytes the spans of the queue have.
    queued: u64,
    /// How many of them the quarantine may hold.
    bound: u64,
}

impl<A: Allocator + Copy> Model for Book<A> {
    ghost use Rattle.heap_book.specs.Blocks.{Blocks};

    ghost Value = { Blocks };

    ghost use Rattle.heap_book.specs.Slots.{live_of, IsKept};
    ghost use Rattle.std.specs.VecDeque.{deque_capacity};

    ghost view = { λ b. record {
      live = live_of b.blocks;
      queue = b.queue.items;
      bound = b.bound;
      room = deque_capacity b.queue;
    } };

    ghost invariant = { λ b. IsKept b.blocks b.queue.items b.queued };
}

impl<A: Allocator + Copy> Book<A> {
    /// A book with no blocks, whose quarantine holds at most that many bytes of spans. Takes no
    /// memory.
    ///
    /// # Errors
    ///
    /// `Bound` exactly if the bound is over 2^40.
    pub fn new(alloc: A, bound: u64) -> Result<Book<A>, Bound>
        ensures err { IsErr result ↔ (largest_quarantine < bound) }
        ensures ok { IfOk result (λ book.
            (book.live ≡ []) × (book.queue ≡ []) × (book.bound ≡ bound)) }
    {
        if bound > MAX_QUARANTINE {
            return Err(Bound);
        }
        Ok(Book {
            blocks: LineMap::new(alloc),
            queue: VecDeque::new(alloc),
            queued: 0,
            bound,
        })
    }

    /// Forgets all blocks, live ones and those in quarantine. The bound stays.
    pub fn clear(&mut self)
        ensures { (self.new.live ≡ []) × (self.new.queue ≡ []) × (self.new.bound ≡ self.old.bound) }
    {
        self.blocks.clear();
        self.queue.clear();
        self.queued = 0;
    }

    /// Reads what the book keeps of blocks that are to be freed, by their addresses, and of as many
    /// of those in quarantine that were freed first, so that the processor has it at hand. The
    /// addresses may be any numbers. Of more than 16 it reads the first ones. Changes nothing.
    #[inline]
    pub fn fetch(&mut self, frees: &[u64])
        ensures { self.new ≡ self.old }
    {
        let mut addresses = [0; 2 * MAX_FETCHED];
        let mut count = 0;
        for place in 0..frees.len().min(MAX_FETCHED) {
            addresses[count] = frees[place];
            count += 1;
            match self.queue.get(place) {
                Some(block) => {
                    addresses[count] = block.at();
                    count += 1;
                }
                None => {}
            }
        }
        self.blocks.fetch(&addresses[..count]);
    }

    /// Takes in what a malloc gave: a block of `size` bytes at the address `at`, which ends at most
    /// at 2^47. The book notes its place, and never touches its bytes.
    ///
    /// # Errors
    ///
    /// `NoMemory` only where the block would be admitted. The book is then as it was.
    pub fn admit(&mut self, at: u64, size: u64) -> Result<Admit, NoMemory>
        requires { at + size ≤ address_end }
        ensures answer { let block : Extent = record { at = at; size = size } in
            IfOk result (IsAdmitAnswer self.old block) }
        ensures after { IfOk result (λ admit. AfterAdmit self.old admit self.new) }
        ensures no_memory { let block : Extent = record { at = at; size = size } in
            OnErr result (may_be_admitted (taken_blocks self.old) block ≡ true) }
        ensures unchanged { OnErr result (self.new ≡ self.old) }
    {
        if at == 0 {
            return Ok(Admit::Ignored);
        }
        let Some(block) = Block::new(at, size) else {
            return Ok(Admit::Refused);
        };
        if !is_free(&self.blocks, &block) {
            return Ok(Admit::Refused);
        }
        self.blocks.insert(at, Slot { size, live: true })?;
        Ok(Admit::Admitted(block))
    }

    /// Takes in a free of an address. After `Held` the quarantine may have more than its bound: the
    /// caller then calls [`evict`](Book::evict) until it answers `None`.
    ///
    /// # Errors
    ///
    /// `NoMemory` only where the answer would be `Held` and the quarantine has no room for one more
    /// block in the memory at hand. The blocks and the bound are then as they were.
    pub fn free(&mut self, at: u64) -> Result<Freed, NoMemory>
        ensures answer { IfOk result (IsFreeAnswer self.old at) }
        ensures after { IfOk result (λ freed. AfterFree self.old freed self.new) }
        ensures no_memory { OnErr result
            ((0 < at) × (list_any (starts_at at) self.old.live ≡ true)) }
        ensures full { OnErr result (self.old.room ≤ length self.old.queue) }
        ensures unchanged { OnErr result (SameBlocks self.old self.new) }
    {
        if at == 0 {
            return Ok(Freed::Ignored);
        }
        let Some(slot) = self.blocks.get(at) else {
            return Ok(Freed::Stranger);
        };
        if !slot.live {
            return Ok(Freed::Twice);
        }
        let block = Block::from_parts(at, slot.size);
        self.queue.push_back(block)?;
        self.blocks.set(
            at,
            Slot {
                size: slot.size,
                live: false,
            },
        );
        self.queued += block.to() - block.from();
        Ok(Freed::Held(block))
    }

    /// Lets go of the block that was freed first and gives it, if the spans in quarantine have more
    /// bytes than the bound. Takes no memory.
    pub fn evict(&mut self) -> Option<Block>
        ensures within { IfNone result (queued_bytes self.old ≤ self.old.bound) }
        ensures past { IfSome result (λ _. self.old.bound < queued_bytes self.old) }
        ensures unchanged { IfNone result (self.new ≡ self.old) }
        ensures released { IfSome result (λ block. ReleasesOldest self.old block self.new) }
        ensures all_held { IfNone result (held_of self.old.bound self.old.queue ≡ self.old.queue) }
        ensures held_stay { held_of self.new.bound self.new.queue
            ≡ held_of self.old.bound self.old.queue }

        // True of every book: no two of its spans share a byte.
        ensures apart { IsDistinct meets (taken_blocks self.old) }
    {
        if self.queued <= self.bound {
            return None;
        }
        let block = self.queue.pop_front()?;
        self.blocks.remove(block.at());
        self.queued -= block.to() - block.from();
        Some(block)
    }
}
