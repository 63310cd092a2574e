//! A source and a sink of bytes whose faults have causes, and whole reads and writes over them.
//!
//! All rules here are this project's own: a fault is answered only where the count of faults of the
//! source or sink rose, so that a caller who blames the outside can be held to it.
#![tactic(auto)]

mod gate;
mod host;
mod memory;
mod stream;
mod whole;

pub use gate::{Gate, GatePoint, OpenGate};
pub use host::{HostSink, HostSource};
pub use memory::{CleanSink, CleanSource, MemorySink, MemorySource};
pub use stream::{Failed, Sink, Source};
pub use whole::{ReadRefused, WriteFault, read_all, write_all};

#[cfg(test)]
mod tests {
    use super::*;
    use std::alloc::Global;
    use std::test::Fail;

    // The number of bytes that were read, or a number from 100000 on for a refusal.
    fn told(alloc: Global, length: usize, limit: u64, failing: u64) -> Result<u64, Fail> {
        let bytes = vec![in alloc; 7u8; length]?;
        let mut source = MemorySource::new(bytes, [failing].to_vec(alloc)?);
        Ok(match &read_all(alloc, &mut source, limit) {
            Ok(bytes) => bytes.len(),
            Err(ReadRefused::TooLong { limit }) => limit.saturating_add(100000),
            Err(ReadRefused::ReadFault) => 200000,
            Err(ReadRefused::NoMemory) => 300000,
        })
    }

    #[test]
    fn a_source_is_read_to_its_end_or_refused(rt: HostRuntime) -> Result<(), Fail> {
        let alloc = rt.alloc();
        for (length, limit, failing, want) in [
            (3usize, 3u64, 9u64, 3u64),
            (3, 2, 9, 100002),
            (0, 0, 9, 0),
            (9000, 9000, 9, 9000),
            (9000, 8999, 9, 108999),
            (9000, 9000, 2, 200000),
            (3, 3, 1, 200000),
            (3, 3, 0, 200000),
        ] {
            assert_eq!(rt;
                told(alloc, length, limit, failing)?,
                want,
                "length {length} limit {limit}"
            );
        }
        let mut clean = CleanSource::new([1u8, 2].to_vec(alloc)?);
        assert!(rt; matches!(&read_all(alloc, &mut clean, 2), Ok(bytes) if bytes.len() == 2));
        Ok(())
    }

    #[test]
    fn a_piece_is_written_whole_or_in_part(rt: HostRuntime) -> Result<(), Fail> {
        let alloc = rt.alloc();
        let mut sink = MemorySink::new(Vec::new(alloc), [1u64].to_vec(alloc)?);
        assert!(rt; write_all(&mut sink, b"abc").is_ok());
        assert!(rt; write_all(&mut sink, b"def").is_err());
        assert!(rt; write_all(&mut sink, b"gh").is_ok());
        assert_eq!(rt; sink.bytes(), b"abcgh".as_slice());
        let mut clean = CleanSink;
        assert!(rt; write_all(&mut clean, b"abc").is_ok());
        let gate = OpenGate;
        gate.pass(GatePoint::CallBegins(1));
        Ok(())
    }
}
