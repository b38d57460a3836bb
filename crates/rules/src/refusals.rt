ghost use Rattle.std.specs.Prelude.{◌≡◌};
ghost use Rattle.rules.specs.Refusals.{number_of, layer_of, side_layer, cold_layer};

use crate::answers::{Layer, Refusal, Side};
use cold::store::ColdRefusal;

impl Side {
    // The layer of the caller's side.
    pub fn layer(self) -> Layer
        ensures { result ≡ side_layer self }
    {
        match self {
            Side::Seller => Layer::Seller,
            Side::Mover => Layer::Move,
        }
    }
}

// The layer of a cold store's refusal, inside a copy's. A function and no `From`: its name says which of the two layers it tells.
pub fn layer_inside(refusal: ColdRefusal) -> Layer
    ensures { result ≡ cold_layer refusal }
{
    match refusal {
        ColdRefusal::There => Layer::Cold,
        ColdRefusal::Full(_) => Layer::Cold,
    }
}

impl Refusal {
    // The number that a refusal tells. A discriminant can't be it: the two of a cold store's are in one variant.
    pub fn number(self) -> u8
        ensures { result ≡ number_of self }
    {
        match self {
            Refusal::OutOfRange(_) => 1,
            Refusal::NoSession => 2,
            Refusal::AlreadyOpen => 3,
            Refusal::NotOpen => 4,
            Refusal::Conflict => 5,
            Refusal::LedgerFull => 6,
            Refusal::HotFull => 7,
            Refusal::MemoFull(_) => 8,
            Refusal::StaleRead => 9,
            Refusal::ClockAtEnd => 10,
            Refusal::NoRow => 11,
            Refusal::AlreadyMarked => 12,
            Refusal::TagsAtEnd => 13,
            Refusal::MoveOver => 14,
            Refusal::Cold(ColdRefusal::Full(_)) => 15,
            Refusal::Cold(ColdRefusal::There) => 16,
        }
    }

    // The layer that it tells.
    pub fn layer(self) -> Layer
        ensures { result ≡ layer_of self }
    {
        match self {
            Refusal::OutOfRange(side) | Refusal::MemoFull(side) => side.layer(),
            Refusal::NoRow
            | Refusal::AlreadyMarked
            | Refusal::TagsAtEnd
            | Refusal::MoveOver
            | Refusal::Cold(_) => Layer::Move,
            _ => Layer::Seller,
        }
    }
}
