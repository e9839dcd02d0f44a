//! A machine: one shared part, any number of locals, and a step that takes the shared part and one local on.
ghost use Rattle.std.specs.Prelude.{◌≡◌, ◌≢◌, ℕ};

/// What a step answers: a line that it made, or that there was nothing to do.
#[derive(Clone, Copy, Debug, PartialEq, Eq)]
pub enum StepOut<L> {
    Made(L),
    Idle,
}

/// The actors of one boot, or of anything else whose actors share one part and step in turns.
///
/// Its four meanings are words: the number of a local, which shared part fits which local, which input suits which local, and which
/// steps there are.
pub trait Machine {
    type Shared: Send + Drop;

    type Local: Send + Drop;

    type Input: Drop;

    type Line: Copy + Send + Drop;

    ghost use Rattle.turn_cell.specs.declared.machine.StepOut.{StepOut};
    ghost use Rattle.turn_cell.specs.declared.machine.StepOut.TheVariants.{Made, Idle};

    /// The number of a local. No step changes it.
    ghost number: { Self.Local → ℕ };

    /// The shared part fits the local.
    ghost fits: { Self.Shared → Self.Local → Type 0 };

    /// The local may be given this input.
    ghost suits: { Self.Local → Self.Input → Type 0 };

    /// A step: shared part, local and input before it, its answer, shared part and local after it.
    ghost steps: { Self.Shared → Self.Local → Self.Input → StepOut Self.Line → Self.Shared → Self.Local → Type 0 };

    /// One step of a local.
    fn step(
        shared: &mut Self::Shared,
        local: &mut Self::Local,
        input: Self::Input,
    ) -> StepOut<Self::Line>
        requires fits { fits shared.old local.old }
        requires suits { suits local.old input }
        ensures { steps shared.old local.old input result shared.new local.new };

    // What every machine's steps obey.
    ghost same_number: { (s : Self.Shared) (l : Self.Local) (i : Self.Input) (o : StepOut Self.Line) (s' : Self.Shared) (l' : Self.Local) → steps s l i o s' l' → number l' ≡ number l };

    ghost still_fits: { (s : Self.Shared) (l : Self.Local) (i : Self.Input) (o : StepOut Self.Line) (s' : Self.Shared) (l' : Self.Local) → fits s l → suits l i → steps s l i o s' l' → fits s' l' };

    ghost others_fit: { (s : Self.Shared) (l : Self.Local) (i : Self.Input) (o : StepOut Self.Line) (s' : Self.Shared) (l' : Self.Local) (other : Self.Local) → number other ≢ number l → fits s l → suits l i → steps s l i o s' l' → fits s other → fits s' other };

    ghost idle_changes_nothing: { (s : Self.Shared) (l : Self.Local) (i : Self.Input) (s' : Self.Shared) (l' : Self.Local) → steps s l i Idle s' l' → (s' ≡ s) × (l' ≡ l) };
}
