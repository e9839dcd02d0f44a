//! A disk for tests that tells nothing of its content, so that a test need not prove what it wrote.
use crate::disk::{CutAt, Disk, DiskFault};

/// The disk inside, but that it tells neither what a read gives nor an image.
#[derive(Drop)]
pub struct Untold<D: Disk> {
    pub disk: D,
}

impl<D: Disk> Disk for Untold<D> {
    ghost use Rattle.disk_model.specs.Untold.{untold, untold_sound};

    ghost state = { λ over. untold (D.state over.disk).meter };

    ghost sound = { λ over. untold_sound (D.state over.disk) (D.sound over.disk) };

    fn read_at(&mut self, at: u64, buf: &mut [u8]) -> Result<(), DiskFault> {
        self.disk.read_at(at, buf)
    }

    fn write_at(&mut self, at: u64, bytes: &[u8]) -> Result<(), DiskFault> {
        self.disk.write_at(at, bytes)
    }

    fn sync(&mut self) -> Result<(), DiskFault> {
        self.disk.sync()
    }

    fn arm(&mut self, cut: Option<CutAt>) {
        self.disk.arm(cut);
    }

    fn restart(&mut self) {
        self.disk.restart();
    }

    fn can_cut(&self) -> bool {
        self.disk.can_cut()
    }
}
