//! A change that a recording disk keeps.
ghost use Rattle.std.specs.Prelude.{◌≡◌, ◌≤◌, length};

/// The longest write that is kept, in bytes.
pub const LONGEST_WRITE: usize = 512;

#[derive(Clone, Copy)]
pub enum Entry {
    /// The first bytes of these, so many, were written from a place on.
    Write(u64, usize, [u8; LONGEST_WRITE]),
    /// What a read gives became the only image, by a sync or a restart.
    Settle,
}

impl Entry {
    ghost use Rattle.disk_model.specs.Entries.{change_of};
    ghost use Rattle.disk_model.specs.History.{Put};

    /// A write that is short enough.
    pub fn write(at: u64, bytes: &[u8]) -> Entry
        requires { length bytes.now ≤ 512 }
        ensures { change_of result ≡ Put at bytes.now }
    {
        let mut kept = [0; LONGEST_WRITE];
        kept[..bytes.len()].copy_from_slice(bytes);
        Entry::Write(at, bytes.len(), kept)
    }
}
