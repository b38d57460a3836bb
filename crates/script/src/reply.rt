use crate::request::Kind;
use keys::rows::ListingRow;
use rules::answers::{Answer, Refusal};
use std::error::Error;

// Why the store is not asked.
#[derive(Clone, Copy, Debug, PartialEq, Eq)]
pub enum BadRequest {
    // the line is no request
    Line,
    // the request does not go with what is in hand
    Move,
}

impl Error for BadRequest {}

// What the store tells of a call.
#[derive(Clone, Copy, Debug, PartialEq, Eq)]
pub struct Answered {
    pub kind: Kind,
    pub told: Result<Answer<ListingRow>, Refusal>,
}

// What a line is answered.
pub type Reply = Result<Answered, BadRequest>;
