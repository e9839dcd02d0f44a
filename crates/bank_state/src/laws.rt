// A law on images.
ghost use Rattle.std.specs.Prelude.{◌≡◌, ℕ, List};
ghost use Rattle.mission_model.specs.PlainMark.{PlainMark};
ghost use Rattle.bank_state.specs.Plans.{Plans};
ghost use Rattle.bank_state.specs.StandsFor.{StandsFor};

/// An image of the store stands for at most one set of plans and one mark.
pub fn an_image_stands_for_one_store()
    ensures { (image : List ℕ) (plans others : Plans) (mark other : PlainMark) → StandsFor image plans mark → StandsFor image others other → (plans ≡ others) × (mark ≡ other) }
{}
