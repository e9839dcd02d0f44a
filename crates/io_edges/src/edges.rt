//! What every source and every sink promises.
//! What it leaves or holds may be told or not; a fault always shows in its count.
ghost use Rattle.std.specs.Prelude.{◌≡◌, ℕ, ◌<◌, ◌≤◌, List, Option, length, IfOk, OnErr};
ghost use Rattle.std.specs.Io.{ReadsAtMost, WritesAtMost};
ghost use Rattle.std.specs.Io.KnownBytes.{ReadConsumes, WriteAppends};
ghost use Rattle.io_edges.specs.Count.{Rose};

/// The outside failed this call.
#[derive(Clone, Copy, Debug, PartialEq, Eq)]
pub struct Failed;

/// The most bytes that a source or a sink in memory moves in one call.
pub const MOST_AT_ONCE: usize = 4096;

/// Where bytes come from.
pub trait Source {
    /// The bytes left, where the source tells them.
    ghost left: { Self → Option (List ℕ) };

    /// How many calls failed.
    ghost faults: { Self → ℕ };

    /// Moves the next bytes into the front of `buf`, and says how many. None for a buffer with room is the end.
    fn take(&mut self, buf: &mut [u8]) -> Result<usize, Failed>
        ensures bound { ReadsAtMost result buf.new }
        ensures bytes { ReadConsumes (left self.old) (left self.new) result buf.new }
        ensures never_falls { faults self.old ≤ faults self.new }
        ensures failed { OnErr result (Rose (faults self.old) (faults self.new)) };
}

/// Where bytes go.
pub trait Sink {
    /// The bytes held, where the sink tells them.
    ghost held: { Self → Option (List ℕ) };

    /// How many calls failed.
    ghost faults: { Self → ℕ };

    /// Appends the first of the bytes, and says how many. None of some bytes is a fault too.
    fn give(&mut self, bytes: &[u8]) -> Result<usize, Failed>
        ensures bound { WritesAtMost result bytes.now }
        ensures bytes { WriteAppends (held self.old) (held self.new) result bytes.now }
        ensures never_falls { faults self.old ≤ faults self.new }
        ensures failed { OnErr result (Rose (faults self.old) (faults self.new)) }
        ensures stuck { 0 < length bytes.now → IfOk result (λ n. n ≡ 0 → Rose (faults self.old) (faults self.new)) };
}
