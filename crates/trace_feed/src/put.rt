//! Writing that knows how far it got.

ghost use Rattle.std.specs.Prelude.{◌<◌, IfErr, OnOk, length, take};
ghost use Rattle.std.specs.Io.KnownBytes.{Appends};

use std::io::Write;
use thiserror::Error;

/// A write failed, or took no byte, after the first `written` bytes had gone out.
#[derive(Clone, Copy, Debug, Error, PartialEq, Eq)]
#[error("only {written} bytes went out")]
pub struct PutFault {
    /// How many bytes went out.
    pub written: usize,
}

/// Writes all of `bytes`, by as many writes as the writer needs.
///
/// It stops at the first write that fails, an interrupted one too, or that takes no byte. What went
/// out is then exactly the first `written` bytes, and some byte did not go out.
pub fn put_all<W: Write>(w: &mut W, bytes: &[u8]) -> Result<(), PutFault>
    ensures ok { OnOk result (Appends (W.contents w.old) (W.contents w.new) bytes.now) }
    ensures fault { IfErr result (λ e.
        Appends (W.contents w.old) (W.contents w.new) (take e.written bytes.now)) }
    ensures short { IfErr result (λ e. e.written < length bytes.now) }
{
    let mut written = 0;
    while written < bytes.len() {
        match w.write(&bytes[written..]) {
            Ok(count) if count > 0 => written += count,
            _ => return Err(PutFault { written }),
        }
    }
    Ok(())
}
