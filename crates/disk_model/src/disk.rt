//! A disk whose power may be cut inside any call: what a read gives, and what a cut may leave.
//! What was written since the device last confirmed it is lost to a cut, or kept, or neither; the rest is safe.
ghost use Rattle.std.specs.Prelude.{◌≡◌, ◌≤◌, ◌+◌, length, IsTrue, IsSome};
ghost use Rattle.disk_model.specs.Disk.{DiskState, Reads, Writes, Syncs, Arms, Restarts, IsSound};

/// Why a call of a disk was not done.
#[derive(Clone, Copy, Debug, PartialEq, Eq)]
pub enum DiskFault {
    /// The device refused the call.
    Failed,
    /// The power was cut inside the call, or is off since an earlier cut.
    Cut,
}

/// Which image a cut leaves, of the bytes that were written since the last successful sync and of
/// those of the write being cut.
#[derive(Clone, Copy, Debug, PartialEq, Eq)]
pub enum Tear {
    /// They are lost, so that the bytes of that sync are back.
    Old,
    /// They are kept.
    New,
    /// The write being cut got so many bytes far; those before it are kept whole.
    Front(u16),
    /// They all read as this byte.
    Fill(u8),
}

/// Inside which call a cut comes, counted from 1 since the last `arm`.
#[derive(Clone, Copy, Debug, PartialEq, Eq)]
pub enum CutAt {
    /// The write or sync of this number.
    Change(u32, Tear),
    /// The read of this number.
    Read(u32, Tear),
}

/// A device of a fixed number of bytes.
pub trait Disk: Send + Drop {
    ghost state: { Self → DiskState };

    /// Reads as many bytes as `buf` holds. The disk is followed by zeros, so a read may pass its end.
    fn read_at(&mut self, at: u64, buf: &mut [u8]) -> Result<(), DiskFault>
        ensures { Reads at (length buf.old) (state self.old) (state self.new) buf.new result };

    /// Writes `bytes` from `at` on. After a failure a read of the range may give other bytes, which only
    /// a later write or `restart` settles; a cut may tear the range until a sync is Ok or a `restart`.
    fn write_at(&mut self, at: u64, bytes: &[u8]) -> Result<(), DiskFault>
        requires { at + length bytes.now ≤ (state self.old).meter.size }
        ensures { Writes at bytes.now (state self.old) (state self.new) result };

    /// Makes what a read gives the only image that a cut may leave.
    fn sync(&mut self) -> Result<(), DiskFault>
        ensures { Syncs (state self.old) (state self.new) result };

    /// Says which cut is to come, and numbers the calls from 1 again.
    fn arm(&mut self, cut: Option<CutAt>)
        requires { IsSome cut → IsTrue (state self.old).meter.can_cut }
        ensures { Arms cut (state self.old) (state self.new) };

    /// Begins again, after a cut or without one: one of the images becomes what a read gives.
    fn restart(&mut self)
        ensures { Restarts (state self.old) (state self.new) };

    /// Whether a cut can be armed.
    fn can_cut(&self) -> bool
        ensures { result ≡ (state self.now).meter.can_cut };

    ghost sound: { (disk : Self) → IsSound (state disk) };
}
