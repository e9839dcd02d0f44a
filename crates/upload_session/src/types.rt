//! The plan types that a message names.

ghost use Rattle.std.specs.Prelude.{◌≡◌, [], ◌∷◌, MatchOption};
ghost use Rattle.upload_session.specs.UploadState.{types_named};
ghost use Rattle.upload_session.specs.SessionLaw.{have_ids};
ghost use Rattle.upload_session.specs.SessionState.{types_from};

use mission_model::{ALL_TYPES, PlanType};
use transfer_lock::Transfer;

/// The types that a message to clear names: the first, and the one with which the clearing goes on from there to the last
/// type.
pub fn types_named(kind: u8) -> Option<(PlanType, Option<PlanType>)>
    ensures { MatchOption result (types_named kind ≡ []) (λ named. types_named kind ≡ named.0 ∷ types_from named.1) }
{
    if kind == ALL_TYPES {
        return Some((PlanType::Mission, Some(PlanType::Fence)));
    }
    let named = PlanType::of_number(kind)?;
    Some((named, None))
}

/// Whether an id is left of this type, and of each type from `next` to the last.
pub fn have_ids(transfer: &Transfer, kind: PlanType, next: Option<PlanType>) -> bool
    ensures { result ≡ have_ids transfer.now (kind ∷ types_from next) }
{
    let later = match next {
        None => true,
        Some(PlanType::Safe) => transfer.has_id(PlanType::Safe),
        Some(PlanType::Fence) => {
            transfer.has_id(PlanType::Fence) && transfer.has_id(PlanType::Safe)
        }
        Some(PlanType::Mission) => {
            transfer.has_id(PlanType::Mission)
                && transfer.has_id(PlanType::Fence)
                && transfer.has_id(PlanType::Safe)
        }
    };
    transfer.has_id(kind) && later
}
