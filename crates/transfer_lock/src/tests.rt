//! Two links at one transfer, and ids up to the last.

ghost use Rattle.std.specs.Prelude.{◌≡◌, IsSome};

use super::*;
use mission_model::{PlanHead, PlanType};
use std::test::*;

const HEADS: [PlanHead; 3] = [
    PlanHead { id: 7, count: 2 },
    PlanHead {
        id: 4_294_967_293,
        count: 0,
    },
    PlanHead {
        id: 4_294_967_295,
        count: 1,
    },
];

/// Who holds the grant that this link is refused.
fn holder_against(transfer: &mut Transfer, link: u8) -> Option<u8>
    requires { IsSome transfer.old.holder }
    ensures { transfer.new ≡ transfer.old }
{
    match transfer.try_begin(link) {
        Ok(_) => None,
        Err(busy) => Some(busy.holder),
    }
}

#[test]
fn one_grant_at_a_time(rt: HostRuntime) {
    let mut transfer = Transfer::new(HEADS);
    for link in [3, 0, 7] {
        match transfer.try_begin(link) {
            Ok(grant) => {
                assert_eq!(rt; holder_against(&mut transfer, 0), Some(link));
                assert_eq!(rt; holder_against(&mut transfer, 3), Some(link));
                transfer.finish(grant);
            }
            Err(_) => assert!(rt; false, "no grant for {link}"),
        }
    }
}

#[test]
fn ids_rise_up_to_the_last(rt: HostRuntime) {
    let mut transfer = Transfer::new(HEADS);
    let rows = [
        (PlanType::Mission, Some(8)),
        (PlanType::Fence, Some(4_294_967_294)),
        (PlanType::Safe, None),
        (PlanType::Mission, Some(9)),
        (PlanType::Fence, Some(4_294_967_295)),
        (PlanType::Fence, None),
        (PlanType::Fence, None),
        (PlanType::Mission, Some(10)),
    ];
    for (kind, want) in rows {
        assert_eq!(rt; transfer.has_id(kind), want.is_some());
        assert_eq!(rt; transfer.take_id(kind), want);
    }
}
