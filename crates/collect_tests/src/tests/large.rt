//! A block of 2^32 bytes, which only version 2 has.

use super::Senders;
use super::collect::expect_printed;
use asan_collect::Options;
use std::alloc::{AllocError, Global};
use std::test::Fail;

/// A malloc of 2^32 bytes at 0x1_0000_0000, a load of its last byte and of the one past it, a free
/// of it, a load of a byte in its middle, and the close.
const FOUR_GIGABYTES: [u8; 65] = [
    0x41, 0x53, 0x54, 0x52, 2, 0, 0, 0, 3, 0, 0, 0, 0, 1, 0, 0, 0, 0, 0, 0, 0, 1, 0, 0, 0, 1, 1,
    0xff, 0xff, 0xff, 0xff, 1, 0, 0, 0, 1, 1, 0, 0, 0, 0, 2, 0, 0, 0, 4, 0, 0, 0, 0, 1, 0, 0, 0, 1,
    1, 0, 0, 0, 0x80, 1, 0, 0, 0, 7,
];

/// What is printed of it where the quarantine has room for it.
const HELD: &str = "\
p0 #3 load 1 at 000200000000 bad 000200000000 heap-buffer-overflow shadow fa
p0 #5 load 1 at 000180000000 bad 000180000000 heap-use-after-free shadow fd
p0 end closed events 5 offset 65 reports 2
";

/// What a sender of version 2 and one of version 1 send.
fn both_versions(alloc: Global) -> Result<Vec<Vec<u8>>, AllocError> {
    let mut first = FOUR_GIGABYTES;
    first[4] = 1;
    let mut sent = Vec::new(alloc);
    sent.push(FOUR_GIGABYTES.to_vec(alloc)?)?;
    sent.push(first.to_vec(alloc)?)?;
    Ok(sent)
}

#[test]
fn four_gigabyte_block_beside_version_1(rt: HostRuntime) -> Result<(), Fail> {
    let alloc = rt.alloc();
    let sent = both_versions(alloc)?;
    let wanted = format!(in alloc; "{HELD}p1 end malformed size events 0 offset 8 reports 0\n")?;
    let options = Options::new(1 << 40, 1, 2, 1 << 24)?;
    for cuts in [[12], [20]] {
        let mut door = Senders::new(alloc, &sent, &cuts);
        expect_printed(&rt, alloc, &mut door, options, (wanted.as_str(), 3))?;
    }
    Ok(())
}
