//! A sum that up to three passes raise on threads. The passes are closed in another order than they were opened in.
ghost use Rattle.std.specs.Prelude.{◌≤◌, slice_get, Some, ◌≡◌, ◌<◌, ℕ, All, IfOk, [], ◌∷◌, refl, length, slice_index_or};
ghost use Rattle.turn_cell.specs.declared.machine.StepOut.TheVariants.{Idle};

use crate::{Machine, Pass, StepOut, TurnCell, TurnOut};
use std::alloc::{AllocError, Global};
use std::sync::Wait;
use std::thread::{Threads, for_each_mut};

/// A machine whose shared part is a sum.
struct Sum;

/// How many steps an adder has left.
#[derive(Drop)]
struct Adder {
    number: u64,
    left: u64,
}

impl Machine for Sum {
    type Shared = u64;

    type Local = Adder;

    type Input = u64;

    type Line = u64;

    ghost number = { λ l. l.number };

    ghost fits = { λ s l. Unit {0} };

    ghost suits = { λ l i. Unit {0} };

    ghost steps = { λ s l i o s' l'. (l'.number ≡ l.number) × (o ≡ Idle → (s' ≡ s) × (l' ≡ l)) };

    fn step(shared: &mut u64, local: &mut Adder, input: u64) -> StepOut<u64> {
        if local.left == 0 {
            return StepOut::Idle;
        }
        local.left -= 1;
        *shared = shared.wrapping_add(input);
        StepOut::Made(*shared)
    }

    ghost same_number = { λ s l i o s' l' step. step.0 };

    ghost still_fits = { λ s l i o s' l' fit suit step. tt };

    ghost others_fit = { λ s l i o s' l' other apart fit suit step was. tt };

    ghost idle_changes_nothing = { λ s l i s' l' step. step.1 refl };
}

/// Takes turns until the pass is idle; the pass with the number n adds n + 1 each time.
fn run_out<R: Wait>(rt: &R, cell: &TurnCell<Sum>, pass: &mut Pass<Sum>)
    requires { pass.old.seat.table_id ≡ cell.now.table.shared.table_id }
    ensures same { pass.new.seat.table_id ≡ cell.now.table.shared.table_id }
    ensures number { pass.new.seat.me.0.number ≡ pass.old.seat.me.0.number }
{
    for _ in 0..100 {
        let input = pass.number().saturating_add(1);
        match cell.turn(rt, pass, input) {
            Ok(TurnOut::Made(_)) => {}
            _ => return,
        }
    }
}

/// So many adders of ten steps each, at most three.
fn adders(alloc: Global, count: usize) -> Result<Vec<Adder>, AllocError>
    requires { (0 < count) × (count ≤ 3) }
    ensures count { IfOk result (λ v. length v.items ≡ count) }
    ensures numbers { IfOk result (λ v. (k : ℕ) (l : _) → slice_get v.items k ≡ Some l → l.number ≡ k) }
{
    let mut adders = Vec::new(alloc);
    for number in 0..count {
        adders.push(Adder {
            number: number as u64,
            left: 10,
        })?;
    }
    Ok(adders)
}

/// All passes at once, each on a thread of its own. The pass with the number n adds n + 1 at each step.
fn run_all<R: Threads + Wait + Sync>(rt: &R, cell: &TurnCell<Sum>, passes: &mut [Pass<Sum>])
    requires { All (λ p. p.seat.table_id ≡ cell.now.table.shared.table_id) passes.old }
    ensures same { (i : ℕ) (d : _) → i < length passes.old → (slice_index_or passes.new i d).seat.table_id ≡ cell.now.table.shared.table_id }
    ensures numbers { (i : ℕ) (d : _) → i < length passes.old → (slice_index_or passes.new i d).seat.me.0.number ≡ (slice_index_or passes.old i d).seat.me.0.number }
{
    for_each_mut(
        rt,
        passes,
        3,
        &|_, pass: &mut Pass<Sum>|
            requires { pass.now.seat.table_id ≡ cell.now.table.shared.table_id }
            ensures { (pass.exit.now.seat.table_id ≡ cell.entry.now.table.shared.table_id) × (pass.exit.now.seat.me.0.number ≡ pass.entry.now.seat.me.0.number) }
        { run_out(rt, cell, pass) },
    );
}

/// The same passes, the last one first.
fn last_first(mut passes: Vec<Pass<Sum>>) -> Result<Vec<Pass<Sum>>, AllocError>
    requires { 0 < length passes.items }
    ensures all { IfOk result (λ moved. (k : ℕ) (p : _) → slice_get passes.items k ≡ Some p → (i : ℕ) × (slice_get moved.items i ≡ Some p)) }
    ensures only { IfOk result (λ moved. (k : ℕ) (p : _) → slice_get moved.items k ≡ Some p → (i : ℕ) × (slice_get passes.items i ≡ Some p)) }
{
    let last = passes.remove(passes.len() - 1);
    passes.insert(0, last)?;
    Ok(passes)
}

/// What the passes of so many adders make together on threads: the sum and the lines, or no memory. The passes come back with the last
/// one first.
fn raised<R: Threads + Wait + Sync>(
    rt: &R,
    alloc: Global,
    count: usize,
) -> Result<(u64, Vec<u64>), AllocError>
    requires { (0 < count) × (count ≤ 3) }
{
    let adders = adders(alloc, count)?;
    let (cell, mut passes) = TurnCell::<Sum>::open(alloc, 0, adders)?;
    run_all(rt, &cell, passes.as_mut_slice());
    Ok(cell.close(last_first(passes)?))
}

/// How often a line is 1, 2 and 3 more than the line before it, and how often another number.
fn steps_in(lines: &[u64]) -> [u64; 4] {
    let mut before = 0;
    let mut times = [0u64, 0, 0, 0];
    for line in lines {
        let at = match line.checked_sub(before) {
            Some(1) => 1,
            Some(2) => 2,
            Some(3) => 3,
            _ => 0,
        };
        times[at] = times[at].saturating_add(1);
        before = *line;
    }
    times
}

#[test]
fn passes_raise_a_sum(rt: HostRuntime) {
    let wanted = [
        (1, 10, [0, 10, 0, 0]),
        (2, 30, [0, 10, 10, 0]),
        (3, 60, [0, 10, 10, 10]),
    ];
    for (count, sum, steps) in wanted {
        let Ok((found, lines)) = raised(&rt, rt.alloc(), count) else {
            assert!(rt; false, "memory");
            return;
        };
        assert_eq!(rt; found, sum, "{count} passes");
        assert_eq!(rt; steps_in(lines.as_slice()), steps, "{count} passes");
    }
}
