//! The power of a disk in memory: which call fails, which is cut, and how the cut tears what was written.
ghost use Rattle.std.specs.Prelude.{◌≡◌, ◌↔◌, ℕ, true, false, IsSome, IsTrue};
ghost use Rattle.disk_model.specs.Disk.{counted, AfterChange, AfterRead, names_change, names_read};
ghost use Rattle.disk_model.specs.Power.{meter_of, answer_of, new_power, renewed, change_step, read_step, after_change, after_read, tear_of_change, tear_of_read, fails_at, armed_anew};
ghost use Rattle.disk_model.specs.declared.disk.Tear.TheVariants as tear;

use crate::disk::{CutAt, Tear};
use crate::tally::{Tally, counted};

/// What comes of a call.
#[derive(Clone, Copy)]
pub enum Step {
    Goes,
    Fails,
    IsOff,
    IsCut(Tear),
}

#[derive(Drop)]
pub struct Power {
    /// The life and the number of each changing call that fails.
    pub fails: Vec<(u16, u32)>,
    /// How often `arm` was called.
    pub life: u64,
    pub tally: Tally,
    pub cuts: u64,
    pub on: bool,
    pub armed: Option<CutAt>,
    /// How the last cut tears what is pending.
    pub torn: Tear,
}

/// The tear of the cut that is armed at this write or sync.
fn tear_of_change(armed: Option<CutAt>, n: u64) -> Option<Tear>
    ensures tear { result ≡ tear_of_change armed n }
    ensures named { IsSome result ↔ IsTrue (names_change armed n) }
{
    match armed {
        Some(CutAt::Change(call, tear)) => { if call as u64 == n { Some(tear) } else { None } }
        Some(CutAt::Read(_, _)) => None,
        None => None,
    }
}

/// The tear of the cut that is armed at this read.
fn tear_of_read(armed: Option<CutAt>, n: u64) -> Option<Tear>
    ensures tear { result ≡ tear_of_read armed n }
    ensures named { IsSome result ↔ IsTrue (names_read armed n) }
{
    match armed {
        Some(CutAt::Read(call, tear)) => { if call as u64 == n { Some(tear) } else { None } }
        Some(CutAt::Change(_, _)) => None,
        None => None,
    }
}

/// Whether this call of this life is listed.
pub fn fails_at(fails: &[(u16, u32)], life: u64, call: u64) -> bool
    ensures { result ≡ fails_at life call fails.now }
{
    for fail in fails {
        if fail.0 as u64 == life && fail.1 as u64 == call {
            return true;
        }
    }
    false
}

impl Power {
    /// The power is on, and no cut is armed.
    pub fn new(fails: Vec<(u16, u32)>) -> Power
        ensures { result ≡ new_power fails }
    {
        Power {
            fails,
            life: 0,
            tally: Tally::new(),
            cuts: 0,
            on: true,
            armed: None,
            torn: Tear::New,
        }
    }

    fn cut(&mut self, tear: Tear)
        ensures { self.new ≡ record self.old { cuts = counted self.old.cuts; on = false; armed = None; torn = tear } }
    {
        self.cuts = counted(self.cuts);
        self.on = false;
        self.armed = None;
        self.torn = tear;
    }

    /// Counts a write or a sync, and says what comes of it. A cut comes before a failure.
    pub fn begin_change(&mut self) -> Step
        ensures meter { (size : ℕ) → AfterChange (meter_of size self.old) (meter_of size self.new) (answer_of result) }
        ensures step { result ≡ change_step self.old }
        ensures after { self.new ≡ after_change self.old }
    {
        self.tally.count_change();
        if !self.on {
            return Step::IsOff;
        }
        match tear_of_change(self.armed, self.tally.changes) {
            Some(tear) => {
                self.cut(tear);
                Step::IsCut(tear)
            }
            None => {
                if fails_at(&self.fails, self.life, self.tally.changes) {
                    self.tally.count_fault();
                    Step::Fails
                } else {
                    Step::Goes
                }
            }
        }
    }

    /// Counts a read, and says what comes of it.
    pub fn begin_read(&mut self) -> Step
        ensures meter { (size : ℕ) → AfterRead (meter_of size self.old) (meter_of size self.new) (answer_of result) }
        ensures step { result ≡ read_step self.old }
        ensures after { self.new ≡ after_read self.old }
    {
        self.tally.count_read();
        if !self.on {
            return Step::IsOff;
        }
        match tear_of_read(self.armed, self.tally.reads) {
            Some(tear) => {
                self.cut(tear);
                Step::IsCut(tear)
            }
            None => Step::Goes,
        }
    }

    /// Begins the next life.
    pub fn arm(&mut self, cut: Option<CutAt>)
        ensures { self.new ≡ armed_anew cut self.old }
    {
        self.armed = cut;
        self.tally.number_anew();
        self.life = self.life.saturating_add(1);
    }

    /// Turns the power on.
    pub fn restart(&mut self)
        ensures { self.new ≡ record self.old { on = true; torn = tear.New } }
    {
        self.on = true;
        self.torn = Tear::New;
    }

    /// Turns the power on with no cut armed, and begins the counts of faults and cuts anew.
    pub fn renew(&mut self)
        ensures { self.new ≡ renewed self.old }
    {
        self.tally.faults = 0;
        self.cuts = 0;
        self.on = true;
        self.armed = None;
        self.torn = Tear::New;
    }
}
