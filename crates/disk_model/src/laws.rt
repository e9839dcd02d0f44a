//! Laws on the counts and images of any disk, whatever calls are made of it.
ghost use Rattle.std.specs.Prelude.{◌≡◌, ◌⊎◌, ◌↔◌, ℕ, Bool, IsTrue, List, Option, None};
ghost use Rattle.disk_model.specs.Disk.{Meter, Elapses, Arms, Restarts, CutComes, Only};
ghost use Rattle.disk_model.specs.Moments.{LeavesOnly};
ghost use Rattle.disk_model.specs.Every.{LeavesOne};
ghost use Rattle.disk_model.specs.Given.{IsGiven};
ghost use Rattle.disk_model.specs.Shelf.{IsZeroDisk, IsStored};
ghost use Rattle.disk_model.specs.Meters.{Uncut, CutWithin};
ghost use Rattle.disk_model.specs.Counts.{Call, Made, Calls, meter_after_all, changes_in, reads_in, is_service, arms_none, names, IsArmed, IsPast, IsInside, Tallied, StaysOn, BeginsAnew};

use crate::disk::{CutAt, Disk};
use crate::shelf::Shelf;

/// What calls leave of the counts and switches follows from their answers: each write, sync and read is counted, each
/// failure is a fault, and Cut on power is the one cut that comes.
pub fn counts_follow_from_answers()
    ensures after { (old new : Meter) (calls : List Call) → Calls old calls new → new ≡ meter_after_all calls old }
    ensures tallied { (old new : Meter) (calls : List Call) → Calls old calls new → Tallied old calls new }
{}

/// Reads, writes and syncs that begin on power are all uncut, or the armed cut came inside one of them.
pub fn a_service_is_cut_inside_a_call()
    ensures { (old new : Meter) (calls : List Call) → IsTrue old.power → IsTrue (is_service calls) → Calls old calls new → Uncut (changes_in calls) (reads_in calls) old new ⊎ CutWithin (changes_in calls) (reads_in calls) old new }
{}

/// A cut at change k comes exactly inside the k-th write or sync behind the `arm`, and one at read k inside the k-th read.
pub fn a_cut_comes_inside_the_call_that_it_names()
    ensures { (old mid new : Meter) (calls : List Call) (call : Call) → IsArmed old → IsTrue (is_service calls) → Calls old calls mid → Made mid call new → CutComes mid new ↔ IsTrue (names old.armed (changes_in calls) (reads_in calls) call) }
{}

/// So many calls behind the `arm` are uncut where they do not reach the call that the cut names, and cut where they do.
pub fn calls_without_a_cut_come_before_it()
    ensures uncut { (k r : ℕ) (old new : Meter) → IsArmed old → Uncut k r old new → IsPast old.armed k r }
    ensures cut { (k r : ℕ) (old new : Meter) → IsArmed old → CutWithin k r old new → IsInside old.armed k r }
{}

/// While none is armed and the power is on, no cut comes.
pub fn no_cut_comes_unarmed()
    ensures { (old new : Meter) (calls : List Call) → IsTrue old.power → old.armed ≡ None → IsTrue (arms_none calls) → Calls old calls new → StaysOn old calls new }
{}

/// `arm` begins the numbers of changes and reads at 0, and keeps the power, the images, the faults and the cuts.
pub fn an_arm_begins_both_numbers_at_0<D: Disk>()
    ensures { (cut : Option CutAt) (old new : D) → Arms cut (D.state old) (D.state new) → BeginsAnew cut (D.state old) (D.state new) }
{}

/// After `restart` what is read is the only image, and it was one before.
pub fn a_restart_leaves_one_image<D: Disk>()
    ensures { (old new : D) → Restarts (D.state old) (D.state new) → LeavesOne (D.state old) (D.state new) }
{}

/// Whatever has held of each image since a moment has held after one more call that leaves only such images, after an
/// `arm` or a `restart`, and after other calls of which it held, as those of a later boot.
pub fn images_since_a_moment_compose<D: Disk>()
    ensures call { (test : List ℕ → Bool) (old mid new : D) → LeavesOnly (D.state old) (D.state mid) (λ c. IsTrue (test c)) → Elapses (D.state mid) (D.state new) → ((c : List ℕ) → (D.state new).images c → IsTrue (test c)) → LeavesOnly (D.state old) (D.state new) (λ c. IsTrue (test c)) }
    ensures arm { (test : List ℕ → Bool) (cut : Option CutAt) (old mid new : D) → LeavesOnly (D.state old) (D.state mid) (λ c. IsTrue (test c)) → Arms cut (D.state mid) (D.state new) → LeavesOnly (D.state old) (D.state new) (λ c. IsTrue (test c)) }
    ensures restart { (test : List ℕ → Bool) (old mid new : D) → LeavesOnly (D.state old) (D.state mid) (λ c. IsTrue (test c)) → Restarts (D.state mid) (D.state new) → LeavesOnly (D.state old) (D.state new) (λ c. IsTrue (test c)) }
    ensures boots { (test : List ℕ → Bool) (old mid new : D) → LeavesOnly (D.state old) (D.state mid) (λ c. IsTrue (test c)) → LeavesOnly (D.state mid) (D.state new) (λ c. IsTrue (test c)) → LeavesOnly (D.state old) (D.state new) (λ c. IsTrue (test c)) }
{}

/// Calls of which none failed or was cut leave a disk as a program gets one where what is read is then the only image.
pub fn a_given_disk_stays_given<D: Disk>()
    ensures { (size k r : ℕ) (old new : D) → IsGiven size (D.state old) → Uncut k r (D.state old).meter (D.state new).meter → (D.state new).meter.faults ≡ (D.state old).meter.faults → Only (D.state new).seen (D.state new).images → IsGiven size (D.state new) }
{}

/// Both calls of a shelf give a disk as a program gets one.
pub fn a_shelf_gives_such_disks<S: Shelf>()
    ensures memory { (size : ℕ) (disk : S.Disk) → IsZeroDisk size (S.Disk.state disk) → IsGiven size (S.Disk.state disk) }
    ensures open { (size : ℕ) (shelf : S) (disk : S.Disk) → IsStored size (S.state shelf) (S.Disk.state disk) → IsGiven size (S.Disk.state disk) }
{}
