//! Standard input and output, which tell nothing of their content.
//! A count of faults is all that is known of them.
ghost use Rattle.std.specs.Prelude.{◌≡◌, ◌<◌, ◌≤◌, [], None, length, IfOk, OnErr, OnOk};
ghost use Rattle.std.specs.Io.{ReadsAtMost, WritesAtMost};
ghost use Rattle.std.specs.Io.Buffered.{writer_buffer};
ghost use Rattle.std.specs.Io.KnownBytes.{ReadConsumes, WriteAppends};
ghost use Rattle.io_edges.specs.Count.{next_count, Rose, CountsFaults};

use crate::edges::{Failed, Sink, Source};
use std::alloc::{AllocError, Global};
use std::io::{BufWriter, Read, Stdin, Stdout, Write};

/// Standard input.
#[derive(Drop)]
pub struct StdSource {
    input: Stdin,
    faults: u64,
}

impl StdSource {
    pub fn new(input: Stdin) -> StdSource
        ensures { result.faults ≡ 0 }
    {
        StdSource { input, faults: 0 }
    }
}

impl Source for StdSource {
    ghost left = { λ _. None };

    ghost faults = { λ s. s.faults };

    fn take(&mut self, buf: &mut [u8]) -> Result<usize, Failed>
        ensures bound { ReadsAtMost result buf.new }
        ensures bytes { ReadConsumes None None result buf.new }
        ensures never_falls { self.old.faults ≤ self.new.faults }
        ensures failed { OnErr result (Rose self.old.faults self.new.faults) }
        ensures faults { CountsFaults result self.old.faults self.new.faults }
    {
        match self.input.read(buf) {
            Ok(count) => Ok(count),
            Err(_) => {
                self.faults = self.faults.saturating_add(1);
                Err(Failed)
            }
        }
    }
}

/// Standard output. Bytes are gathered, and leave at `flush` at the latest.
#[derive(Drop)]
pub struct StdSink {
    output: BufWriter<Stdout>,
    faults: u64,
}

impl StdSink {
    pub fn new(alloc: Global, output: Stdout) -> Result<StdSink, AllocError>
        ensures no_fault { IfOk result (λ s. s.faults ≡ 0) }
        ensures none_gathered { IfOk result (λ s. writer_buffer s.output ≡ []) }
    {
        match BufWriter::new(alloc, output) {
            Ok(output) => Ok(StdSink { output, faults: 0 }),
            Err(_) => Err(AllocError),
        }
    }

    /// Writes what was gathered. After `Failed` some of it may not have left.
    pub fn flush(&mut self) -> Result<(), Failed>
        ensures none_gathered { OnOk result (writer_buffer self.new.output ≡ []) }
        ensures faults { CountsFaults result self.old.faults self.new.faults }
        ensures never_falls { self.old.faults ≤ self.new.faults }
    {
        match self.output.flush() {
            Ok(()) => Ok(()),
            Err(_) => Err(self.fault()),
        }
    }

    // Counts a fault.
    fn fault(&mut self) -> Failed
        ensures counted { self.new.faults ≡ next_count self.old.faults }
        ensures never_falls { self.old.faults ≤ self.new.faults }
    {
        self.faults = self.faults.saturating_add(1);
        Failed
    }
}

impl Sink for StdSink {
    ghost held = { λ _. None };

    ghost faults = { λ s. s.faults };

    fn give(&mut self, bytes: &[u8]) -> Result<usize, Failed>
        ensures bound { WritesAtMost result bytes.now }
        ensures bytes { WriteAppends None None result bytes.now }
        ensures never_falls { self.old.faults ≤ self.new.faults }
        ensures failed { OnErr result (Rose self.old.faults self.new.faults) }
        ensures stuck { 0 < length bytes.now → IfOk result (λ n. n ≡ 0 → Rose self.old.faults self.new.faults) }
        ensures some { 0 < length bytes.now → IfOk result (λ n. 0 < n) }
        ensures faults { CountsFaults result self.old.faults self.new.faults }
    {
        match self.output.write(bytes) {
            Ok(0) if !bytes.is_empty() => Err(self.fault()),
            Ok(count) => Ok(count),
            Err(_) => Err(self.fault()),
        }
    }
}
