//! A few ranges that cover each place which was written since the last sync, so that a sync, a tear and a restart
//! need not look at the others. Ranges that touch are joined; where there is no room for one more, all are.
ghost use Rattle.std.specs.Prelude.{◌≡◌, ◌⊎◌, ◌≤◌, ◌<◌, ℕ, length, IfSome};
ghost use Rattle.std.specs.List.{slice_index_or};
ghost use Rattle.disk_model.specs.Spans.{Beside, OutOf, EndBy, Takes};

/// How many ranges are kept.
pub const SPANS: usize = 4;

/// The places from the first on and before the second.
#[derive(Clone, Copy)]
pub struct Span {
    pub from: usize,
    pub to: usize,
}

/// A range without a place.
pub const NO_PLACE: Span = Span { from: 0, to: 0 };

impl Span {
    /// Whether there is no place between this range and the other.
    fn touches(self, other: Span) -> bool {
        self.from <= other.to && other.from <= self.to
    }

    /// The shortest range around both.
    fn hull(self, other: Span) -> Span
        ensures this { (k : ℕ) → Beside k result → Beside k self }
        ensures other { (k : ℕ) → Beside k result → Beside k other }
        ensures end { (n : ℕ) → self.to ≤ n → other.to ≤ n → result.to ≤ n }
    {
        Span {
            from: self.from.min(other.from),
            to: self.to.max(other.to),
        }
    }
}

/// Takes out the ranges that touch this one, and gives the range around them and it.
fn take_near(spans: &mut [Span; SPANS], span: Span) -> Span
    ensures { Takes spans.old spans.new span result }
{
    let mut hull = span;
    for i in 0..SPANS {
        if spans[i].touches(hull) {
            hull = spans[i].hull(hull);
            spans[i] = NO_PLACE;
        }
    }
    hull
}

/// The range around all of these and this one.
fn hull_of_all(spans: &[Span; SPANS], span: Span) -> Span
    ensures covers { (k : ℕ) → Beside k result → OutOf spans.now k }
    ensures span { (k : ℕ) → Beside k result → Beside k span }
    ensures end { (n : ℕ) → EndBy n spans.now → span.to ≤ n → result.to ≤ n }
{
    let mut hull = span;
    for i in 0..SPANS {
        hull = spans[i].hull(hull);
    }
    hull
}

/// The first range without a place.
fn first_empty(spans: &[Span; SPANS]) -> Option<usize>
    ensures { IfSome result (λ i. (i < 4) × ((k : ℕ) → Beside k (slice_index_or spans.now i (record { from = 0; to = 0 })))) }
{
    for i in 0..SPANS {
        if spans[i].to <= spans[i].from {
            return Some(i);
        }
    }
    None
}

/// Covers one more range.
pub fn cover(spans: &mut [Span; SPANS], span: Span)
    ensures places { length spans.new ≡ 4 }
    ensures covers { (k : ℕ) → OutOf spans.new k → OutOf spans.old k }
    ensures span { (k : ℕ) → OutOf spans.new k → Beside k span }
    ensures end { (n : ℕ) → EndBy n spans.old → span.to ≤ n → EndBy n spans.new }
{
    let near = take_near(spans, span);
    match first_empty(spans) {
        Some(i) => spans[i] = near,
        None => {
            let all = hull_of_all(spans, near);
            *spans = [all, NO_PLACE, NO_PLACE, NO_PLACE];
        }
    }
}
