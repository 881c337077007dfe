//! A writer that has room for a set number of bytes.

ghost use Rattle.std.specs.Prelude.{◌≡◌, ◌+◌, ◌↔◌, IfOk, IsErr, IsOk, IsTrue, OnErr, Ok};
ghost use Rattle.std.specs.Prelude.{Some, length, min};
ghost use Rattle.std.specs.Io.{WritesAtMost};
ghost use Rattle.std.specs.Io.KnownBytes.{Keeps, WriteAppends};

use std::alloc::{Allocator, Global};
use std::io;
use std::io::{Error, ErrorKind, Write};

/// What a writer with no room left answers.
#[derive(Clone, Copy, Debug, PartialEq, Eq)]
pub enum WhenFull {
    /// An error.
    Fails,
    /// That it took 0 bytes.
    TakesNone,
}

/// A writer that keeps what it takes: `room` bytes in all, at most `step` of them at a call.
#[derive(Drop)]
pub struct ShortWriter<A: Allocator + Copy = Global> {
    /// The bytes taken so far.
    pub held: Vec<u8, A>,
    /// How many bytes more it takes.
    pub room: usize,
    /// How many bytes it takes at one call at most.
    pub step: usize,
    /// What it answers once there is no room.
    pub when_full: WhenFull,
    /// Whether a flush succeeds.
    pub flushes: bool,
}

impl<A: Allocator + Copy> Write for ShortWriter<A> {
    ghost contents = { λ w. Some w.held.items };

    /// Takes as much of `buf` as there is room for and a step allows. If memory runs out, it
    /// answers an error and takes nothing.
    fn write(&mut self, buf: &[u8]) -> io::Result<usize>
        ensures bound { WritesAtMost result buf.now }
        ensures bytes { WriteAppends
            (Some self.old.held.items) (Some self.new.held.items) result buf.now }
        ensures taken { IfOk result (λ n.
            n ≡ min (length buf.now) (min self.old.room self.old.step)) }
        ensures room { IfOk result (λ n. self.new.room + n ≡ self.old.room) }
        ensures kept_room { OnErr result (self.new.room ≡ self.old.room) }
        ensures fails { self.old.room ≡ 0 → self.old.when_full ≡ WhenFull.Fails → IsErr result }
        ensures takes_none { self.old.room ≡ 0 →
            self.old.when_full ≡ WhenFull.TakesNone → result ≡ Ok 0 }
        ensures step { self.new.step ≡ self.old.step }
        ensures when_full { self.new.when_full ≡ self.old.when_full }
        ensures flushes { self.new.flushes ≡ self.old.flushes }
    {
        if self.room == 0 {
            return match self.when_full {
                WhenFull::Fails => Err(Error::from(ErrorKind::BrokenPipe)),
                WhenFull::TakesNone => Ok(0),
            };
        }
        let count = buf.len().min(self.room).min(self.step);
        self.held.extend_from_slice(&buf[..count])?;
        self.room -= count;
        Ok(count)
    }

    /// Changes nothing.
    fn flush(&mut self) -> io::Result<()>
        ensures bytes { Keeps (Some self.old.held.items) (Some self.new.held.items) }
        ensures flushes { IsOk result ↔ IsTrue self.old.flushes }
        ensures unchanged { self.new ≡ self.old }
    {
        if self.flushes {
            Ok(())
        } else {
            Err(Error::from(ErrorKind::BrokenPipe))
        }
    }
}
