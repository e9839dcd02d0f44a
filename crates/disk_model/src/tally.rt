//! The counts that every disk keeps: its faults, and its calls since the last `arm`.
ghost use Rattle.std.specs.Prelude.{◌≡◌, ◌≤◌};
ghost use Rattle.disk_model.specs.Disk.{counted, next_call};

/// The number that no count of calls passes.
const LAST_CALL: u64 = 1 << 32;

#[derive(Clone, Copy)]
pub struct Tally {
    pub faults: u64,
    pub changes: u64,
    pub reads: u64,
}

/// The number of calls with one more.
pub fn next_call(n: u64) -> u64
    ensures { result ≡ next_call n }
{
    if n < LAST_CALL { n + 1 } else { LAST_CALL }
}

/// A count of faults or cuts with one more.
pub fn counted(n: u64) -> u64
    ensures counted { result ≡ counted n }
    ensures later { n ≤ result }
{
    n.saturating_add(1)
}

impl Tally {
    /// Nothing was called.
    pub fn new() -> Tally
        ensures { result ≡ record { faults = 0; changes = 0; reads = 0 } }
    {
        Tally {
            faults: 0,
            changes: 0,
            reads: 0,
        }
    }

    /// Counts a write or a sync.
    pub fn count_change(&mut self)
        ensures { self.new ≡ record self.old { changes = next_call self.old.changes } }
    {
        self.changes = next_call(self.changes);
    }

    /// Counts a read.
    pub fn count_read(&mut self)
        ensures { self.new ≡ record self.old { reads = next_call self.old.reads } }
    {
        self.reads = next_call(self.reads);
    }

    /// Counts a call that failed.
    pub fn count_fault(&mut self)
        ensures counted { self.new ≡ record self.old { faults = counted self.old.faults } }
        ensures later { self.old.faults ≤ self.new.faults }
    {
        self.faults = counted(self.faults);
    }

    /// Numbers the calls from 1 again.
    pub fn number_anew(&mut self)
        ensures { self.new ≡ record self.old { changes = 0; reads = 0 } }
    {
        self.changes = 0;
        self.reads = 0;
    }
}
