ghost use Rattle.std.specs.Prelude.{◌≡◌, ℕ, ◌<◌, ◌≤◌, List, [], ◌++◌, length, IfOk, OnOk, OnErr, IfSome, IsErrOf, Some};
ghost use Rattle.dx_io.specs.Faults.{Rose};
ghost use Rattle.dx_io.specs.Told.{Appends, AppendsFront};
ghost use Rattle.dx_io.specs.declared.all.ReadEnd.TheVariants.{NoMemory};

use crate::{Failed, Sink, Source};
use std::alloc::{AllocError, Global};
use thiserror::Error;

/// Why an input was not read whole.
#[derive(Clone, Copy, Debug, PartialEq, Eq, Error)]
pub enum ReadEnd {
    /// A read failed.
    #[error("the input could not be read")]
    Fault,
    /// There are more bytes than the limit.
    #[error("the input is longer than the limit")]
    TooLong,
    /// There is no memory for the bytes.
    #[error("no memory is left for the input")]
    NoMemory,
}

impl From<AllocError> for ReadEnd {
    ghost from_gives = { λ _ e. e ≡ NoMemory };

    fn from(_: AllocError) -> ReadEnd {
        ReadEnd::NoMemory
    }
}

/// How many bytes are asked for at once.
const PIECE: usize = 65536;

// The length is a parameter, so that no proof writes the piece out.
fn zeros(alloc: Global, len: usize) -> Result<Vec<u8>, AllocError>
    ensures { IfOk result (λ v. length v.items ≡ len) }
{
    vec![in alloc; 0u8; len]
}

/// Reads to the end: all bytes that are left, if they are no more than `limit`. `TooLong` stops at
/// the first piece that passes the limit, and a later read goes on behind that piece.
pub fn read_all<S: Source>(alloc: Global, from: &mut S, limit: u64) -> Result<Vec<u8>, ReadEnd>
    ensures later { S.faults from.old ≤ S.faults from.new }
    ensures whole { IfOk result (λ v. IfSome (S.left from.old) (λ l. v.items ≡ l)) }
    ensures ended { OnOk result (IfSome (S.left from.new) (λ l. l ≡ [])) }
    ensures within { IfOk result (λ v. length v.items ≤ limit) }
    ensures fault { IsErrOf result ReadEnd.Fault → Rose (S.faults from.old) (S.faults from.new) }
    ensures too_long { IsErrOf result ReadEnd.TooLong → IfSome (S.left from.old) (λ l. limit < length l) }
{
    let mut bytes = Vec::new(alloc);
    let mut buffer = zeros(alloc, PIECE)?;
    let piece = buffer.as_mut_slice();
    loop {
        let n = match from.read(piece) {
            Ok(n) => n,
            Err(Failed) => return Err(ReadEnd::Fault),
        };
        if n == 0 {
            return Ok(bytes);
        }
        if n as u64 > limit - bytes.len() as u64 {
            return Err(ReadEnd::TooLong);
        }
        bytes.extend_from_slice(&piece[..n])?;
    }
}

/// Appends all the bytes, or some front of them and fails. It takes no memory of its own.
pub fn write_all<K: Sink>(to: &mut K, bytes: &[u8]) -> Result<(), Failed>
    ensures later { K.faults to.old ≤ K.faults to.new }
    ensures ok { OnOk result (Appends (K.held to.old) bytes.now (K.held to.new)) }
    ensures front { OnErr result (AppendsFront (K.held to.old) bytes.now (K.held to.new)) }
    ensures failed { OnErr result (Rose (K.faults to.old) (K.faults to.new)) }
{
    let mut at = 0;
    while at < bytes.len() {
        at += to.write(&bytes[at..])?;
    }
    Ok(())
}
