// What banks keep beside their disk.
ghost use Rattle.std.specs.Prelude.{◌≡◌, ◌-◌};
ghost use Rattle.bank_state.specs.Ledger.{banks_of, with_banks, cell_of, with_cell, after_plan, after_mark, after_refusal, after_settling};

use gated_cell::GatedCell;
use mission_model::{Mark, PlanHead, PlanType};

/// The two banks of a plan type.
#[derive(Clone, Copy)]
pub struct PlanBanks {
    /// The cell that names the bank in force.
    pub cell: GatedCell,
    /// The bank in force, 0 or 1. The other one is spare.
    pub bank: u8,
    /// The plan in it.
    pub head: PlanHead,
}

/// A change of which a restart may find the old state or the new one.
#[derive(Clone, Copy)]
pub enum Doubt {
    /// The commit of the plan of this head, which stands in the spare bank of its type.
    Plan { kind: PlanType, head: PlanHead },
    /// This mark of the mission in force.
    Mark(Mark),
}

/// What banks know of their disk.
#[derive(Clone, Copy)]
pub struct Parts {
    /// The banks of missions.
    pub mission: PlanBanks,
    /// The banks of fences.
    pub fence: PlanBanks,
    /// The banks of safe (rally) points.
    pub safe: PlanBanks,
    /// The cell of the mark.
    pub mark_cell: GatedCell,
    /// The stored mark of the mission, if one is stored.
    pub mark: Option<Mark>,
    /// The change in doubt. At most one is, since a doubt is settled before the next change.
    pub doubt: Option<Doubt>,
}

impl PlanBanks {
    /// The bank that is not in force.
    pub(crate) fn spare(&self) -> u8
        ensures { result ≡ 1 - self.now.bank }
    {
        if self.bank == 0 { 1 } else { 0 }
    }
}

impl Parts {
    /// The banks of a plan type.
    pub(crate) fn banks_of(&self, kind: PlanType) -> PlanBanks
        ensures { result ≡ banks_of self.now kind }
    {
        match kind {
            PlanType::Mission => self.mission,
            PlanType::Fence => self.fence,
            PlanType::Safe => self.safe,
        }
    }

    /// Replaces the banks of a plan type.
    fn put(&mut self, kind: PlanType, banks: PlanBanks)
        ensures { self.new ≡ with_banks self.old kind banks }
    {
        match kind {
            PlanType::Mission => self.mission = banks,
            PlanType::Fence => self.fence = banks,
            PlanType::Safe => self.safe = banks,
        }
    }

    /// The plan of this head, in the spare bank so far, is in force. A mark of the mission before counts no more.
    pub(crate) fn take_plan(&mut self, kind: PlanType, cell: GatedCell, head: PlanHead)
        ensures { self.new ≡ after_plan self.old kind cell head }
    {
        let bank = self.banks_of(kind).spare();
        self.put(kind, PlanBanks { cell, bank, head });
        match kind {
            PlanType::Mission => self.mark = None,
            PlanType::Fence | PlanType::Safe => {}
        }
    }

    /// This mark is stored.
    pub(crate) fn take_mark(&mut self, cell: GatedCell, mark: Mark)
        ensures { self.new ≡ after_mark self.old cell mark }
    {
        self.mark_cell = cell;
        self.mark = Some(mark);
    }

    /// The cell of a change.
    pub(crate) fn cell_of(&self, change: Doubt) -> GatedCell
        ensures { result ≡ cell_of self.now change }
    {
        match change {
            Doubt::Plan { kind, head: _ } => self.banks_of(kind).cell,
            Doubt::Mark(_) => self.mark_cell,
        }
    }

    /// Replaces the cell of a change.
    fn put_cell(&mut self, change: Doubt, cell: GatedCell)
        ensures { self.new ≡ with_cell self.old change cell }
    {
        match change {
            Doubt::Plan { kind, head: _ } => {
                let mut banks = self.banks_of(kind);
                banks.cell = cell;
                self.put(kind, banks);
            }
            Doubt::Mark(_) => self.mark_cell = cell,
        }
    }

    /// A change was refused, which left its cell so: the change is in doubt where the cell is.
    pub(crate) fn keep(&mut self, change: Doubt, cell: GatedCell)
        ensures { self.new ≡ after_refusal self.old change cell }
    {
        self.put_cell(change, cell);
        if cell.doubt {
            self.doubt = Some(change);
        }
    }

    /// The change in doubt is settled, which left its cell so.
    pub(crate) fn settle(&mut self, change: Doubt, cell: GatedCell)
        ensures { self.new ≡ after_settling self.old change cell }
    {
        self.put_cell(change, cell);
        self.doubt = None;
    }
}
