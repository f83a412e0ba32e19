// Reading all that there is, and writing all of a text.
ghost use Rattle.std.specs.Prelude.{◌≡◌, ◌<◌, ◌≤◌, ℕ, List, length, take, vec_len, IfOk, OnOk, OnErr, IfSome, IsErrOf};
ghost use Rattle.std.specs.Io.KnownBytes.{Appends, Consumes, IsAtEnd};
ghost use Rattle.gl_io.specs.Faults.{HasCause};
ghost use Rattle.gl_io.specs.Whole.{FaultsBy, IsTaken};

use crate::{Failed, Sink, Source};
use std::alloc::{AllocError, Global};

/// Why a read of all that there is stopped.
#[derive(Debug, Drop)]
pub enum ReadStop {
    /// A read failed.
    Fault,
    /// There is more than was asked for.
    TooLong,
    /// Memory ran out.
    Memory(AllocError),
}

// The bytes that are read at once.
const PIECE: usize = 4096;

/// Reads all that is left, unless that is more than `most` bytes: then it stops behind more than `most` of them. It takes its memory
/// before it reads.
pub fn read_all<S: Source>(alloc: Global, source: &mut S, most: usize) -> Result<Vec<u8>, ReadStop>
    ensures fault { FaultsBy (S.faults source.old) (S.faults source.new) result }
    ensures ok { IfOk result (λ v. IsTaken (S.left source.old) v.items) }
    ensures taken { IfOk result (λ v. Consumes (S.left source.old) (S.left source.new) v.items) }
    ensures end { OnOk result (IsAtEnd (S.left source.new)) }
    ensures short { IfOk result (λ v. vec_len v ≤ most) }
    ensures too_long { IsErrOf result ReadStop.TooLong → IfSome (S.left source.old) (λ xs. most < length xs) }
    ensures over { IsErrOf result ReadStop.TooLong → (bytes : List ℕ) × (most < length bytes) × Consumes (S.left source.old) (S.left source.new) bytes }
    ensures memory { (e : AllocError) → IsErrOf result (ReadStop.Memory e) → source.new ≡ source.old }
{
    let mut out = Vec::with_capacity(alloc, most).map_err(ReadStop::Memory)?;
    let mut piece = [0u8; PIECE];
    loop {
        let count = source.read(&mut piece).map_err(|_| ReadStop::Fault)?;
        if count == 0 {
            return Ok(out);
        }
        if most - out.len() < count {
            return Err(ReadStop::TooLong);
        }
        out.extend_from_slice(&piece[..count]).unwrap();
    }
}

/// Writes all of `bytes`. Where a write fails, a front of them was written.
pub fn write_all<K: Sink>(sink: &mut K, bytes: &[u8]) -> Result<(), Failed>
    ensures cause { HasCause (K.faults sink.old) (K.faults sink.new) result }
    ensures ok { OnOk result (Appends (K.written sink.old) (K.written sink.new) bytes.now) }
    ensures err { OnErr result ((n : ℕ) × Appends (K.written sink.old) (K.written sink.new) (take n bytes.now)) }
{
    let mut done = 0;
    while done < bytes.len() {
        done += sink.write(&bytes[done..])?;
    }
    Ok(())
}
