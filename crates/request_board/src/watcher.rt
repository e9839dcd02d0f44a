//! Watchers: clients of the board that only read. A watcher begins an input, and goes on with it as replies to its
//! reads come; each time it answers a note for the record.

ghost use Rattle.std.specs.Prelude.{◌≡◌, ℕ, ◌<◌, true, None, Option, List, refl};

use mission_model::{Asked, Note, PlanHead, Reply, WatchInput, WatchOut};

/// A client that only reads. Its answers are functions of the watcher and of what it is given.
pub trait Watcher: Send + Drop {
    ghost use Rattle.mission_model.specs.declared.plan.PlanHead.{PlanHead};
    ghost use Rattle.mission_model.specs.declared.request.Asked.{Asked};
    ghost use Rattle.mission_model.specs.declared.request.Reply.{Reply};
    ghost use Rattle.mission_model.specs.declared.watch.WatchInput.{WatchInput};
    ghost use Rattle.mission_model.specs.declared.watch.WatchOut.{WatchOut};
    ghost use Rattle.request_board.specs.Watching.{Awaited, Answers, HeadsFit, IsTold};

    /// What `work` answers, and the watcher afterwards.
    ghost works: { Self → WatchInput → List PlanHead → WatchOut × Self };

    /// What `told` answers, and the watcher afterwards.
    ghost tells: { Self → Asked → Reply → List PlanHead → WatchOut × Self };

    /// The read whose reply the watcher waits for, after an answer with a read.
    ghost waits: { Self → Awaited };

    /// A number that falls while an input goes on.
    ghost left: { Self → ℕ };

    /// Begins an input, with these heads of the mission, the fence and the safe points published.
    fn work(&mut self, input: &WatchInput, heads: [PlanHead; 3]) -> WatchOut
        requires { HeadsFit heads }
        ensures { works self.old input.now heads ≡ (result, self.new) };

    /// Goes on with the current input after the reply to its read.
    fn told(&mut self, asked: &Asked, reply: &Reply, heads: [PlanHead; 3]) -> WatchOut
        requires heads { HeadsFit heads }
        requires told { IsTold (waits self.old) asked.now reply.now heads }
        ensures { tells self.old asked.now reply.now heads ≡ (result, self.new) };

    // The laws of the answers.
    ghost works_well: { (w : Self) (input : WatchInput) (heads : List PlanHead) → HeadsFit heads → Answers heads (works w input heads).0 (waits (works w input heads).1) };

    ghost tells_well: { (w : Self) (asked : Asked) (reply : Reply) (heads : List PlanHead) → HeadsFit heads → IsTold (waits w) asked reply heads → Answers heads (tells w asked reply heads).0 (waits (tells w asked reply heads).1) };

    ghost falls: { (w : Self) (asked : Asked) (reply : Reply) (heads : List PlanHead) → HeadsFit heads → IsTold (waits w) asked reply heads → (tells w asked reply heads).0.more ≡ true → left (tells w asked reply heads).1 < left w };
}

/// The watcher that reads nothing: each input ends at once, with an empty note.
#[derive(Clone, Copy, Drop)]
pub struct NoWatch;

const NOTHING: WatchOut = WatchOut {
    read: None,
    note: Note {
        code: 0,
        a: 0,
        b: 0,
        x: 0,
        y: 0,
    },
    more: false,
};

impl Watcher for NoWatch {
    ghost use Rattle.request_board.specs.Silence.{silence, nothing_read};

    ghost works = { λ w input heads. (silence, w) };

    ghost tells = { λ w asked reply heads. (silence, w) };

    ghost waits = { λ w. nothing_read };

    ghost left = { λ w. 0 };

    fn work(&mut self, _input: &WatchInput, _heads: [PlanHead; 3]) -> WatchOut {
        NOTHING
    }

    fn told(&mut self, _asked: &Asked, _reply: &Reply, _heads: [PlanHead; 3]) -> WatchOut {
        NOTHING
    }

    ghost works_well = { λ w input heads fit. record { read = tt; more = refl; next = tt } };

    ghost tells_well = { λ w asked reply heads fit told. record { read = tt; more = refl; next = tt } };

    ghost falls = { λ w asked reply heads fit told more. absurd cc };
}
