//! Tests of senders of each version of the format in one collection.

use super::Senders;
use super::collect::expect_printed;
use asan_collect::Options;
use std::alloc::{AllocError, Global};
use std::test::Fail;
use test_streams::{MISS, POISON, STREAM};

/// A poison of 8 bytes at 0x1000, which is a user's, a load of a byte there, and the close.
const USERS_POISON: [u8; 36] = [
    0x41, 0x53, 0x54, 0x52, 1, 0, 0, 0, 5, 0, 0x10, 0, 0, 0, 0, 0, 0, 8, 0, 0, 0, 0, 0, 0, 0, 1, 1,
    0, 0x10, 0, 0, 0, 0, 0, 0, 7,
];

/// In version 3, a malloc of 5 bytes at 0x1000, an anew, a store of 4 bytes at 0x1004, which is
/// good then, and the close.
pub(super) const FORGOTTEN: [u8; 37] = [
    0x41, 0x53, 0x54, 0x52, 3, 0, 0, 0, 3, 0, 0x10, 0, 0, 0, 0, 0, 0, 5, 0, 0, 0, 0, 0, 0, 0, 8, 2,
    4, 4, 0x10, 0, 0, 0, 0, 0, 0, 7,
];

/// What is printed of seven senders: of version 1, 2 and 1, of one that says version 4, of one that
/// says version 2 and has no poison, of version 3, and of one with its bytes that says version 2.
const TEXT: &str = "\
p0 #2 store 4 at 000000001004 bad 000000001005 heap-buffer-overflow shadow 05
p0 end closed events 2 offset 36 reports 1
p1 #2 load 8 at 000000001000 bad 000000001004 stack-buffer-overflow shadow 04
p1 end closed events 2 offset 37 reports 1
p2 #2 load 1 at 000000001000 bad 000000001000 use-after-poison shadow f7
p2 end closed events 2 offset 36 reports 1
p3 end malformed header events 0 offset 0 reports 0
p4 end closed events 2 offset 36 reports 0
p5 end closed events 3 offset 37 reports 0
p6 end malformed code events 1 offset 25 reports 0
";

/// What the seven senders send.
fn sent_by_seven(alloc: Global) -> Result<Vec<Vec<u8>>, AllocError> {
    let mut fourth = POISON;
    fourth[4] = 4;
    let mut second = MISS;
    second[4] = 2;
    let mut no_anew = FORGOTTEN;
    no_anew[4] = 2;
    let streams: [&[u8]; 7] = [
        &STREAM,
        &POISON,
        &USERS_POISON,
        &fourth,
        &second,
        &FORGOTTEN,
        &no_anew,
    ];
    let mut sent = Vec::new(alloc);
    for stream in streams {
        sent.push(stream.to_vec(alloc)?)?;
    }
    Ok(sent)
}

#[test]
fn senders_of_each_version(rt: HostRuntime) -> Result<(), Fail> {
    let alloc = rt.alloc();
    let sent = sent_by_seven(alloc)?;
    for workers in 1..=3 {
        for ring in [1, 1024] {
            let options = Options::new(1 << 28, ring, workers, 1 << 24)?;
            let mut door = Senders::new(alloc, &sent, &[11, 20]);
            expect_printed(&rt, alloc, &mut door, options, (TEXT, 3))?;
        }
    }
    Ok(())
}
