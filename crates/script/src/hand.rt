ghost use Rattle.std.specs.Prelude.{◌≡◌};
ghost use Rattle.script.specs.Hand.{allowed};

use crate::request::Request;

// The move in hand: none, one that was chosen, or one that was copied too. No Option, since no state holds a value.
#[derive(Clone, Copy, Debug, PartialEq, Eq)]
pub enum InHand {
    Nothing,
    Chosen,
    Copied,
}

// Whether a request goes with what is in hand.
pub fn allows(request: &Request, hand: InHand) -> bool
    ensures { result ≡ allowed request.now hand }
{
    match request {
        Request::Choose(_) => hand == InHand::Nothing,
        Request::Copy => hand == InHand::Chosen,
        Request::Settle => hand == InHand::Copied,
        Request::GiveUp => hand != InHand::Nothing,
        _ => true,
    }
}
