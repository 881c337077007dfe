//! What no run of the built program can show: an output of which only the flush fails, and how much
//! a read asks for.

use asan_program::run;
use std::alloc::{AllocError, Global};
use std::io;
use std::io::{Error, ErrorKind, Read};
use std::test::Fail;
use test_writers::{ShortWriter, WhenFull};

/// A reader that gives its bytes to a read that asks for 4,096, and fails any other. All tests have
/// it, since the program is proved again for each kind of reader.
#[derive(Drop)]
struct GivesTo4096<'a> {
    bytes: &'a [u8],
}

impl Read for GivesTo4096<'_> {
    fn read(&mut self, buf: &mut [u8]) -> io::Result<usize> {
        if buf.len() != 4096 {
            return Err(Error::from(ErrorKind::InvalidInput));
        }
        self.bytes.read(buf)
    }
}

#[test]
fn output_that_is_not_flushed(rt: HostRuntime) -> Result<(), Fail> {
    for line in [
        "",
        "--help",
        "check -",
        "check - missing",
        "check --live -",
        "check --live - missing",
    ] {
        let words = words_of(rt.alloc(), line)?;
        let input = GivesTo4096 {
            bytes: b"".as_slice(),
        };
        let mut output = writer(rt.alloc());
        output.flushes = false;
        let mut faults = writer(rt.alloc());
        let status = run(&rt, &words, input, &mut output, &mut faults);
        assert_eq!(rt; status, 4);
        assert!(rt; !output.held.is_empty());
        assert!(rt; faults.held.is_empty());
    }
    Ok(())
}

/// How the trace below ends.
const END_OF_FREES: &[u8] = b"p0 end closed events 1000 offset 9009 reports 0\n";

/// The header, 1,000 frees at 0 and the close.
fn thousand_frees(alloc: Global) -> Result<Vec<u8>, AllocError> {
    let mut bytes = [0x41, 0x53, 0x54, 0x52, 1, 0, 0, 0].to_vec(alloc)?;
    for _ in 0..1000 {
        bytes.extend_from_slice(&[4, 0, 0, 0, 0, 0, 0, 0, 0])?;
    }
    bytes.push(7)?;
    Ok(bytes)
}

#[test]
fn each_read_of_the_input_asks_for_4096_bytes(rt: HostRuntime) -> Result<(), Fail> {
    let bytes = thousand_frees(rt.alloc())?;
    for (line, status) in [
        ("", 0),
        ("check -", 0),
        ("check - missing", 3),
        ("check --live -", 0),
        ("check --live - missing", 3),
    ] {
        let words = words_of(rt.alloc(), line)?;
        let input = GivesTo4096 { bytes: &bytes };
        let mut output = writer(rt.alloc());
        let mut faults = writer(rt.alloc());
        assert_eq!(rt; run(&rt, &words, input, &mut output, &mut faults), status);
        assert!(rt; output.held.starts_with(END_OF_FREES));
    }
    Ok(())
}

/// The words of a line.
fn words_of(alloc: Global, line: &str) -> Result<Vec<String>, AllocError> {
    let mut words = Vec::new(alloc);
    for word in line.split_whitespace() {
        words.push(String::from_str(alloc, word)?)?;
    }
    Ok(words)
}

/// A writer with room enough.
fn writer(alloc: Global) -> ShortWriter {
    ShortWriter {
        held: Vec::new(alloc),
        room: usize::MAX,
        step: 1000,
        when_full: WhenFull::Fails,
        flushes: true,
    }
}
