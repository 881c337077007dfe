//! The start of the program, on the arguments of its environment.

use crate::arguments::{argument_not_utf8, arguments_of};
use crate::program::{not_utf8, run};
use asan_session::no_memory;
use std::fs::File;
use std::io::{ErrorKind, Read, Write};
use std::net::Net;
use std::rt::{Env, Files};
use std::sync::Wait;
use std::thread::Threads;
use std::time::Clock;

/// How long an argument may be that is named.
const MAX_NAMED_ARGUMENT: usize = 4096;

/// Runs the program on the arguments after its name, and gives the status that it ends with. Those
/// that can't be had, or are not UTF-8, are refused.
pub fn start<R, I, O, E>(rt: &R, input: I, output: &mut O, stderr: &mut E) -> u8
where
    R: Env + Files<File = File> + Net + Threads + Wait + Clock + Sync + AllocGlobal,
    I: Read + Send + Drop,
    O: Write,
    E: Write,
{
    match arguments_of(rt, rt.alloc()) {
        Ok(arguments) => run(rt, &arguments, input, output, stderr),
        Err(error) if error.kind() == ErrorKind::OutOfMemory => no_memory(stderr),
        Err(_) => not_utf8(stderr, argument_not_utf8(rt, &mut [0; MAX_NAMED_ARGUMENT])),
    }
}
