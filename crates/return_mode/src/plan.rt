//! A return that was chosen, and how far it is gone through.

ghost use Rattle.std.specs.Prelude.{◌≡◌};
ghost use Rattle.return_mode.specs.ReturnState.{begun, seq_of, out_of, after_out, after_reached};
ghost use Rattle.return_mode.specs.Route.{targets_of};

use crate::leg::is_return_leg;
use crate::route::{Route, Target};
use mission_model::Look;
use std::marker::Model;

/// What a return shows of its present target. Items of the mission and safe points are told by their seq.
#[derive(Clone, Copy, Debug, PartialEq, Eq)]
pub enum ReturnOut {
    Leg(u16),
    /// An item of the mission that is no leg or has no position.
    Skip(u16),
    Home,
    Safe(u16),
    /// There was no target to choose.
    None,
    /// All targets were reached or skipped.
    Done,
    /// The item is not known yet.
    Pending,
}

/// A return: its targets that are left, whether there was none to choose, and whether the present one was shown.
#[derive(Drop)]
pub struct ReturnPlan {
    left: Route,
    is_none: bool,
    shown: bool,
}

impl Model for ReturnPlan {
    ghost use Rattle.return_mode.specs.ReturnState.{ReturnState};
    ghost use Rattle.return_mode.specs.Route.{targets_of};

    ghost Value = { ReturnState };

    ghost view = { λ plan. record { left = targets_of plan.left; is_none = plan.is_none; shown = plan.shown } };
}

impl ReturnPlan {
    /// A return along a route that was chosen.
    pub(crate) fn begin(route: Route) -> ReturnPlan
        ensures { result ≡ begun (targets_of route) }
    {
        ReturnPlan {
            left: route,
            is_none: route.target().is_none(),
            shown: false,
        }
    }

    /// The seq of the item of the mission that is the present target: none where that is no item of it.
    pub fn seq(&self) -> Option<u16>
        ensures { result ≡ seq_of self.now }
    {
        match self.left.target() {
            Some(Target::Item(seq)) => Some(seq),
            _ => None,
        }
    }

    /// Shows the present target. `look` is what is known of the item at `seq`; it is not looked at where there is no `seq`.
    pub fn next(&mut self, look: Look) -> ReturnOut
        ensures out { result ≡ out_of self.old look }
        ensures state { self.new ≡ after_out self.old result }
    {
        let out = match (self.left.target(), look) {
            (None, _) if self.is_none => ReturnOut::None,
            (None, _) => ReturnOut::Done,
            (Some(Target::Home), _) => ReturnOut::Home,
            (Some(Target::Safe(seq)), _) => ReturnOut::Safe(seq),
            (Some(Target::Item(_)), Look::Pending) => return ReturnOut::Pending,
            (Some(Target::Item(seq)), Look::Here(item)) if is_return_leg(&item) => {
                ReturnOut::Leg(seq)
            }
            (Some(Target::Item(seq)), Look::Here(_)) => {
                self.left = self.left.rest();
                ReturnOut::Skip(seq)
            }
        };
        self.shown = matches!(
            out,
            ReturnOut::Leg(_) | ReturnOut::Home | ReturnOut::Safe(_)
        );
        out
    }

    /// The vehicle is at the target: goes one on where the present target was shown, and tells whether it was.
    pub fn reached(&mut self) -> bool
        ensures value { result ≡ self.old.shown }
        ensures state { self.new ≡ after_reached self.old }
    {
        let shown = self.shown;
        if shown {
            self.left = self.left.rest();
            self.shown = false;
        }
        shown
    }
}
