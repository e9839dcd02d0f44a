//! What a seat at the table knows of the history, and what lies in the table's slot.
use std::collections::LinkedList;
use std::snapshot::Snapshot;

/// A step that made a line: whose it was, what it was given, and what it made of local and shared part. It stands in proofs alone.
pub struct Entry<S, L, I, N> {
    pub number: u64,
    pub before: L,
    pub input: I,
    pub line: N,
    pub shared: S,
    pub after: L,
}

/// What a seat had seen when it was joined to the first one. It stands in proofs alone.
pub struct Account<S, L, I, N> {
    pub number: u64,
    pub seen: LinkedList<Entry<S, L, I, N>>,
}

/// What a seat knows: its ticket, its number, how the history began, and as much of the history as it has seen. It stands in proofs
/// alone.
pub struct SeatView<S, L, I, N> {
    /// It has drawn a ticket that is not served yet.
    pub waits: bool,
    pub ticket: u64,
    /// It is its turn.
    pub holds: bool,
    pub number: u64,
    /// Of the first seat: how many seats have a number.
    pub given: u64,
    /// It was joined to another, and is none any more.
    pub spent: bool,
    /// The opening shared part, unless the seat is spent.
    pub shared: Option<S>,
    pub locals: LinkedList<L>,
    pub seen: LinkedList<Entry<S, L, I, N>>,
    /// The accounts of the seats that were joined to it.
    pub joined: LinkedList<Account<S, L, I, N>>,
}

/// The shared part and the locals that a history begins from.
#[derive(Drop)]
pub struct Beginning<S, L> {
    pub shared: Snapshot<S>,
    pub locals: Snapshot<Vec<L>>,
}

/// The entry that this turn adds to the history, told by who leaves. It has no bytes.
#[derive(Drop)]
pub struct Addition<S, L, I, N> {
    pub before: Snapshot<L>,
    pub input: Snapshot<I>,
    pub line: Snapshot<N>,
    pub shared: Snapshot<S>,
    pub after: Snapshot<L>,
}

/// What lies in the slot: the shared part with all lines made so far.
#[derive(Drop)]
pub struct Chest<S, L, I, N> {
    pub shared: S,
    pub lines: Vec<N>,
    pub addition: Option<Addition<S, L, I, N>>,
}
