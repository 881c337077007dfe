//! The arguments of the command line.

use std::alloc::Global;
use std::env::FillError;
use std::rt::Env;
use std::{env, io};

/// The environment of a program whose arguments begin after its name, which need not be text.
#[derive(Drop)]
struct AfterName<'a, R>(&'a R);

impl<R: Env> Env for AfterName<'_, R> {
    fn arg(&self, number: usize, room: &mut [u8]) -> Result<usize, FillError> {
        match number.checked_add(1) {
            Some(number) => self.0.arg(number, room),
            None => Err(FillError::NotPresent),
        }
    }

    fn var(&self, name: &str, room: &mut [u8]) -> Result<usize, FillError> {
        self.0.var(name, room)
    }

    fn var_at(&self, number: usize, room: &mut [u8]) -> Result<usize, FillError> {
        self.0.var_at(number, room)
    }
}

/// The arguments after the program's name.
pub fn arguments_of<R: Env>(rt: &R, alloc: Global) -> io::Result<Vec<String>> {
    Ok(env::args(&(AfterName(rt), alloc))?.collect(alloc)?)
}

/// The first of them that is not UTF-8, or an empty one if none fits into `room`.
pub fn argument_not_utf8<'a, R: Env>(rt: &R, room: &'a mut [u8]) -> &'a [u8] {
    let arguments = AfterName(rt);
    for number in 0..usize::MAX {
        match arguments.arg(number, room) {
            Ok(length) if str::from_utf8(&room[..length]).is_err() => return &room[..length],
            Err(FillError::NotPresent) => break,
            _ => {}
        }
    }
    &[]
}
