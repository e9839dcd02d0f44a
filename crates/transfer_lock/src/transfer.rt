//! The transfer, the grant that makes a link its holder, and the plan ids of a boot.

ghost use Rattle.std.specs.Prelude.{◌≡◌, ◌≢◌, ◌+◌, ◌↔◌, List, length, Some, None, IsTrue, IsErr, OnErr, IfOk, IfErr, IfNone, IfSome};
ghost use Rattle.mission_model.specs.declared.plan.PlanType.{PlanType};
ghost use Rattle.transfer_lock.specs.TransferState.{opened, begun, finished, id_taken, last_id, HasId};

use mission_model::{PlanHead, PlanType};
use std::marker::Model;

/// The right of one link to bring plans. `Transfer::finish` takes it back; one that is let go with its link at the end of a
/// boot is never given back.
#[derive(Drop)]
pub struct Grant {
    link: u8,
}

impl Model for Grant {
    ghost use Rattle.std.specs.Prelude.{ℕ};

    ghost Value = { ℕ };

    ghost view = { λ a. a.link };
}

/// Another transfer goes on.
#[derive(Clone, Copy, Debug, PartialEq, Eq)]
pub struct Busy {
    /// The link that has the grant.
    pub holder: u8,
}

/// The transfer of a boot.
#[derive(Drop)]
pub struct Transfer {
    holder: Option<u8>,
    ids: [u32; 3],
}

impl Model for Transfer {
    ghost use Rattle.transfer_lock.specs.TransferState.{TransferState};

    ghost Value = { TransferState };

    ghost view = { λ a. record { holder = a.holder; ids = a.ids } };
}

impl Transfer {
    ghost use Rattle.transfer_lock.specs.TransferLaw.{Call, Finishes, begin_event, id_event};

    /// No link has the grant yet. The heads of mission, fence and safe points are those in force at the boot.
    pub fn new(heads: [PlanHead; 3]) -> Transfer
        ensures { result ≡ opened heads }
    {
        Transfer {
            holder: None,
            ids: heads.map(|head| head.id),
        }
    }

    /// Gives the link the grant, unless a grant is out.
    pub fn try_begin(&mut self, link: u8) -> Result<Grant, Busy>
        ensures ok { IfOk result (λ grant. (grant ≡ link) × (self.old.holder ≡ None) × (self.new ≡ begun self.old link)) }
        ensures busy { IfErr result (λ busy. (self.old.holder ≡ Some busy.holder) × (self.new ≡ self.old)) }
        ensures call { Call self.old (begin_event result) self.new }
    {
        if let Some(holder) = self.holder {
            return Err(Busy { holder });
        }
        self.holder = Some(link);
        Ok(Grant { link })
    }

    /// Takes the grant back.
    pub fn finish(&mut self, grant: Grant)
        requires { self.old.holder ≡ Some grant }
        ensures finished { self.new ≡ finished self.old }
        ensures call { Call self.old (Finishes grant) self.new }
    {
        let Grant { link: _ } = grant;
        self.holder = None;
    }

    /// Uses the id after the last one of this type, unless none is left. Ids end at 4294967295.
    pub fn take_id(&mut self, kind: PlanType) -> Option<u32>
        ensures none { IfNone result ((last_id self.old kind ≡ 4294967295) × (self.new ≡ self.old)) }
        ensures some { IfSome result (λ id. (id ≡ last_id self.old kind + 1) × HasId self.old kind × (self.new ≡ id_taken self.old kind)) }
        ensures call { Call self.old (id_event kind result) self.new }
        ensures others { (other : PlanType) → other ≢ kind → last_id self.new other ≡ last_id self.old other }
    {
        let id = self.ids[kind as usize].checked_add(1)?;
        self.ids[kind as usize] = id;
        Some(id)
    }

    /// Whether an id of this type is left.
    pub fn has_id(&self, kind: PlanType) -> bool
        ensures { IsTrue result ↔ HasId self.now kind }
    {
        self.ids[kind as usize] < u32::MAX
    }
}

ghost use Rattle.mission_model.specs.declared.plan.PlanHead.{PlanHead};
ghost use Rattle.transfer_lock.specs.TransferState.{TransferState};
ghost use Rattle.transfer_lock.specs.TransferLaw.{Event, Calls, OneAtATime};

/// Whatever calls are made on a new transfer, and in whatever order: at most one grant is out, and the ids of a type
/// rise by one.
pub fn one_transfer_at_a_time()
    ensures { (heads : List PlanHead) (events : List Event) (last : TransferState) → length heads ≡ 3 → Calls (opened heads) events last → OneAtATime heads events }
{}
