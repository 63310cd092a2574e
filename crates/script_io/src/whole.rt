ghost use Rattle.std.specs.Prelude.{◌≤◌, length, MatchResult, OnErr, OnOk};
ghost use Rattle.std.specs.Io.KnownBytes.{Appends, IsAtEnd};
ghost use Rattle.script_io.specs.Causes.{Rose};
ghost use Rattle.script_io.specs.Streams.{Gives, RefusedFor, AppendsPart};

use crate::stream::{Sink, Source};
use row_values::Bytes;
use std::alloc::Global;
use thiserror::Error;

/// Why a source was not read to its end.
#[derive(Debug, Drop, Error)]
pub enum ReadRefused {
    #[error("the source failed")]
    ReadFault,
    #[error("more than {limit} bytes")]
    TooLong { limit: u64 },
    #[error("out of memory")]
    NoMemory,
}

/// A sink failed, or took nothing more.
#[derive(Debug, Drop, Error)]
#[error("the sink failed")]
pub struct WriteFault;

const PIECE: usize = 4096;

/// Reads the source to its end, where that comes within the limit. Each turn takes at least one
/// byte.
pub fn read_all<S: Source>(alloc: Global, source: &mut S, limit: u64) -> Result<Bytes, ReadRefused>
    ensures answer { MatchResult result
        (λ bytes. (length bytes ≤ limit) × Gives (S.left source.old) bytes × IsAtEnd (S.left source.new))
        (RefusedFor (S.left source.old) limit (S.faults source.old) (S.faults source.new)) }
    ensures faults { S.faults source.old ≤ S.faults source.new }
{
    let mut bytes = Vec::new(alloc);
    let mut piece = [0u8; PIECE];
    'pieces: loop {
        let Ok(n) = source.read(&mut piece) else {
            return Err(ReadRefused::ReadFault);
        };
        if n == 0 {
            return Ok(Bytes::from_vec(bytes));
        }
        if n as u64 > limit - bytes.len() as u64 {
            return Err(ReadRefused::TooLong { limit });
        }
        if bytes.extend_from_slice(&piece[..n]).is_err() {
            return Err(ReadRefused::NoMemory);
        }
    }
}

/// Writes all the bytes. After a fault a part of them from their front was written. It takes no
/// memory.
pub fn write_all<K: Sink>(sink: &mut K, bytes: &[u8]) -> Result<(), WriteFault>
    ensures ok { OnOk result (Appends (K.written sink.old) (K.written sink.new) bytes.now) }
    ensures fault { OnErr result (Rose (K.faults sink.old) (K.faults sink.new)) }
    ensures part { OnErr result (AppendsPart (K.written sink.old) (K.written sink.new) bytes.now) }
    ensures faults { K.faults sink.old ≤ K.faults sink.new }
{
    let mut at = 0;
    'pieces: while at < bytes.len() {
        match sink.write(&bytes[at..]) {
            Ok(0) | Err(_) => return Err(WriteFault),
            Ok(n) => at += n,
        }
    }
    Ok(())
}
