ghost use Rattle.std.specs.Prelude.{ℕ, List, ◌≡◌, ◌≤◌, ◌<◌, length, IfOk};
ghost use Rattle.std.specs.declared.option.Option.{Option};
ghost use Rattle.std.specs.Io.KnownBytes.{ReadConsumes, WriteAppends};
ghost use Rattle.script_io.specs.Causes.{Rose, HasCause};

/// A read or a write that failed.
#[derive(Clone, Copy, Debug, PartialEq, Eq)]
pub struct Failed;

/// A source of bytes. Contracts see the bytes that are left, where it tells them, and a count of its
/// faults, which never falls. A count that stands at 2^64 - 1 passes for one that rose.
pub trait Source {
    ghost left: { Self → Option (List ℕ) };

    ghost faults: { Self → ℕ };

    /// Puts the first of the bytes that are left at the buffer's start, and answers how many. None,
    /// for a buffer that is not empty, is the end. A read that fails takes nothing.
    fn read(&mut self, buf: &mut [u8]) -> Result<usize, Failed>
        ensures bound { IfOk result (λ n. n ≤ length buf.new) }
        ensures bytes { ReadConsumes (left self.old) (left self.new) result buf.new }
        ensures cause { HasCause (faults self.old) (faults self.new) result };
}

/// A sink of bytes. Contracts see the bytes written, where it tells them, and a count of its faults,
/// which never falls. A count that stands at 2^64 - 1 passes for one that rose.
pub trait Sink {
    ghost written: { Self → Option (List ℕ) };

    ghost faults: { Self → ℕ };

    /// Takes the first of these bytes, and answers how many. A write that fails takes none, and one
    /// that takes none of some counts as a fault too.
    fn write(&mut self, bytes: &[u8]) -> Result<usize, Failed>
        ensures bound { IfOk result (λ n. n ≤ length bytes.now) }
        ensures bytes { WriteAppends (written self.old) (written self.new) result bytes.now }
        ensures cause { HasCause (faults self.old) (faults self.new) result }
        ensures stuck { IfOk result (λ n. n ≡ 0 → 0 < length bytes.now → Rose (faults self.old) (faults self.new)) };
}
