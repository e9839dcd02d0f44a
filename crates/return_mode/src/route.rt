//! A rule for the targets that are left of a return.

ghost use Rattle.std.specs.Prelude.{◌≡◌, ◌≤◌, slice_get, drop};
ghost use Rattle.return_mode.specs.Route.{as_target, as_targets, targets_of};

/// A target of a return.
#[derive(Clone, Copy)]
pub enum Target {
    /// The item of the mission of this seq.
    Item(u16),
    Home,
    /// The safe point of this seq.
    Safe(u16),
}

/// The targets that are left.
#[derive(Clone, Copy)]
pub enum Route {
    Nowhere,
    /// One target.
    To(Target),
    /// The items of the mission from the first to the last seq.
    Onward { first: u16, last: u16 },
    /// The items of the mission before the index, the last one first, and then the home where it is set.
    Back { index: u16, has_home: bool },
}

impl Route {
    /// The present target.
    pub fn target(self) -> Option<Target>
        ensures { as_targets result ≡ slice_get (targets_of self) 0 }
    {
        match self {
            Route::Nowhere => None,
            Route::To(target) => Some(target),
            Route::Onward { first, last } if first <= last => Some(Target::Item(first)),
            Route::Onward { .. } => None,
            Route::Back { index, .. } if index > 0 => Some(Target::Item(index - 1)),
            Route::Back { has_home, .. } if has_home => Some(Target::Home),
            Route::Back { .. } => None,
        }
    }

    /// What is left behind the present target.
    pub fn rest(self) -> Route
        ensures { targets_of result ≡ drop 1 (targets_of self) }
    {
        match self {
            Route::Onward { first, last } if first < last => Route::Onward {
                first: first + 1,
                last,
            },
            Route::Back { index, has_home } if index > 0 => Route::Back {
                index: index - 1,
                has_home,
            },
            _ => Route::Nowhere,
        }
    }
}
