//! The two layouts of the store, the numbers of each in one table, and the version by which the compat cell tells them
//! apart.

ghost use Rattle.std.specs.Prelude.{◌≡◌, IfSome, IfNone};
ghost use Rattle.dataman_layout.specs.Layouts.{version_of, limit_in};

use mission_model::PlanType;

/// How the cells and the banks of a store stand: stores are made in layout 2, and those of layout 1 are read and migrated.
#[derive(Clone, Copy, Debug, PartialEq, Eq)]
pub enum Layout {
    One,
    Two,
}

/// The numbers of a layout. Those of a plan's type stand in the order mission, fence, safe points.
#[derive(Clone, Copy)]
pub struct Table {
    /// Where the state cells stand.
    pub states: [u64; 3],
    /// Where the mark's cell stands.
    pub mark: u64,
    /// The most pairs of a mark.
    pub pairs: u8,
    /// Where the banks 0 and 1 stand.
    pub banks: [[u64; 2]; 3],
    /// The most items of a plan.
    pub limits: [u16; 3],
}

/// The numbers of layout 1.
pub const ONE: Table = Table {
    states: [32, 64, 96],
    mark: 128,
    pairs: 16,
    banks: [[512, 24_512], [48_512, 51_584], [54_656, 56_192]],
    limits: [500, 64, 32],
};

/// The numbers of layout 2.
pub const TWO: Table = Table {
    states: [65_536, 65_568, 65_600],
    mark: 65_632,
    pairs: 32,
    banks: [[66_048, 162_048], [258_048, 261_120], [264_192, 265_728]],
    limits: [2_000, 64, 32],
};

/// The version that the compat cell of a layout tells.
pub fn version_of(layout: Layout) -> u32
    ensures { result ≡ version_of layout }
{
    match layout {
        Layout::One => 1,
        Layout::Two => 2,
    }
}

/// The layout of a version, if it is one's.
pub fn layout_of(version: u32) -> Option<Layout>
    ensures found { IfSome result (λ layout. version ≡ version_of layout) }
    ensures none { IfNone result ((layout : Layout) → version ≡ version_of layout → ⊥) }
{
    match version {
        1 => Some(Layout::One),
        2 => Some(Layout::Two),
        _ => None,
    }
}

/// The most items of a plan.
pub fn limit_in(layout: Layout, kind: PlanType) -> u16
    ensures { result ≡ limit_in layout kind }
{
    let limits = match layout {
        Layout::One => ONE.limits,
        Layout::Two => TWO.limits,
    };
    match kind {
        PlanType::Mission => limits[0],
        PlanType::Fence => limits[1],
        PlanType::Safe => limits[2],
    }
}
