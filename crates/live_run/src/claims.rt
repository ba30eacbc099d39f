ghost use Rattle.std.specs.Prelude.{◌≡◌, max};
ghost use Rattle.live_run.specs.Claims.{HasClaimed};

use session_callers::{Claim, Keeper};

/// Claims the dial up to a generation's number, where it is claimed up to a number, and says up to which it is claimed then.
/// Nobody else can claim any.
pub(crate) fn claim_up_to(keeper: &mut Keeper, claimed: u32, generation: u32) -> u32
    requires { HasClaimed claimed keeper.old }
    ensures most { result ≡ max claimed generation }
    ensures claims { HasClaimed (max claimed generation) keeper.new }
{
    for number in claimed..generation {
        match keeper.claim_dial(u64::from(number)) {
            Claim::Claimed(dial) => {
                let _number = dial.spend();
            }
            Claim::Newer(_) => unreachable!(),
        }
    }
    claimed.max(generation)
}
