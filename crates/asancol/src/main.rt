//! Checks recorded runs for bad memory accesses, frees and mallocs.
#![tactic(auto)]

use asan_program::{ClosedStreams, start};
use std::process::ExitCode;

fn main(rt: HostRuntime) -> ExitCode {
    let closed = ClosedStreams::hold(&rt);
    let status = start(&rt, rt.stdin(), &mut rt.stdout(), &mut rt.stderr());
    drop(closed);
    ExitCode::from(status)
}
