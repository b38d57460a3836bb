ghost use Rattle.std.specs.Prelude.{◌≡◌, Some};
ghost use Rattle.script.specs.Calls.{name_of, kind_named, kind_of};

use crate::request::{Kind, Request};
use std::fmt;

impl Kind {
    // All calls.
    const ALL: [Kind; 12] = [
        Kind::Begin,
        Kind::Read,
        Kind::Put,
        Kind::Drop,
        Kind::Commit,
        Kind::Abandon,
        Kind::Choose,
        Kind::Copy,
        Kind::Settle,
        Kind::GiveUp,
        Kind::Sweep,
        Kind::Collect,
    ];

    // The call's name.
    pub fn name(self) -> &'static str
        ensures { result.now ≡ name_of self }
    {
        match self {
            Kind::Begin => "begin",
            Kind::Read => "read",
            Kind::Put => "put",
            Kind::Drop => "drop",
            Kind::Commit => "commit",
            Kind::Abandon => "abandon",
            Kind::Choose => "choose",
            Kind::Copy => "copy",
            Kind::Settle => "settle",
            Kind::GiveUp => "give-up",
            Kind::Sweep => "sweep",
            Kind::Collect => "collect",
        }
    }

    // The call of a name.
    pub(crate) fn named(name: &[u8]) -> Option<Kind>
        ensures { result ≡ kind_named name.now }
    {
        Kind::ALL
            .iter()
            .copied()
            .find(|kind| name == kind.name().as_bytes())
    }
}

impl fmt::Display for Kind {
    ghost output = { λ k. Some (name_of k) };

    fn fmt<W: fmt::Write>(&self, f: &mut fmt::Formatter<W>) -> fmt::Result {
        let name = self.name();
        write!(f, "{name}")
    }
}

impl Request {
    // The call that a request makes.
    pub fn kind(&self) -> Kind
        ensures { result ≡ kind_of self.now }
    {
        match self {
            Request::Begin(_, _) => Kind::Begin,
            Request::Read(_, _) => Kind::Read,
            Request::Put(_, _, _) => Kind::Put,
            Request::Drop(_, _) => Kind::Drop,
            Request::Commit(_) => Kind::Commit,
            Request::Abandon(_) => Kind::Abandon,
            Request::Choose(_) => Kind::Choose,
            Request::Copy => Kind::Copy,
            Request::Settle => Kind::Settle,
            Request::GiveUp => Kind::GiveUp,
            Request::Sweep => Kind::Sweep,
            Request::Collect => Kind::Collect,
        }
    }
}
