ghost use Rattle.std.specs.Prelude.{◌≡◌, None};

use crate::stream::{Failed, Sink, Source};
use std::io::{Read, Write};

/// A reader of the system as a source, which tells no content. What the system gives is not proved.
#[derive(Drop)]
pub struct HostSource<R: Read> {
    inner: R,
    faults: u64,
}

impl<R: Read> HostSource<R> {
    /// The source that reads this reader, without a fault so far.
    pub fn new(inner: R) -> HostSource<R>
        ensures faults { ⟦<HostSource<R> as Source>⟧.faults result ≡ 0 }
    {
        HostSource { inner, faults: 0 }
    }
}

impl<R: Read> Source for HostSource<R> {
    ghost left = { λ _. None };

    ghost faults = { λ s. s.faults };

    fn read(&mut self, buf: &mut [u8]) -> Result<usize, Failed> {
        match self.inner.read(buf) {
            Ok(count) => Ok(count),
            Err(_) => {
                self.faults = self.faults.saturating_add(1);
                Err(Failed)
            }
        }
    }
}

/// A writer of the system as a sink, which tells no content. What the system takes is not proved.
#[derive(Drop)]
pub struct HostSink<W: Write> {
    inner: W,
    faults: u64,
}

impl<W: Write> HostSink<W> {
    /// The sink that writes to this writer, without a fault so far.
    pub fn new(inner: W) -> HostSink<W>
        ensures faults { ⟦<HostSink<W> as Sink>⟧.faults result ≡ 0 }
    {
        HostSink { inner, faults: 0 }
    }
}

impl<W: Write> Sink for HostSink<W> {
    ghost written = { λ _. None };

    ghost faults = { λ s. s.faults };

    fn write(&mut self, bytes: &[u8]) -> Result<usize, Failed> {
        match self.inner.write(bytes) {
            Ok(0) if !bytes.is_empty() => {
                self.faults = self.faults.saturating_add(1);
                Ok(0)
            }
            Ok(count) => Ok(count),
            Err(_) => {
                self.faults = self.faults.saturating_add(1);
                Err(Failed)
            }
        }
    }
}
