ghost use Rattle.std.specs.Prelude.{◌≡◌, min, map};
ghost use Rattle.std.specs.List.{reduce, filter_map};
ghost use Rattle.rules.specs.Horizon.{horizon};

use crate::sheet::{Session, Sheet};

// The smallest read time of an open session.
fn least_time(sessions: &[Session]) -> Option<u32>
    ensures { result ≡ reduce min (map (λ r. r.time) (filter_map (λ x. x.reading) sessions.now)) }
{
    sessions
        .iter()
        .filter_map(|session| session.reading)
        .map(|reading| reading.time)
        .min()
}

impl Sheet {
    // The smallest read time of an open session, or the clock if none is open.
    #[tactic(auto, using(crate::proofs::Least::least_is))]
    pub fn horizon(&self) -> u32
        ensures { result ≡ horizon self.now.clock self.now.sessions }
    {
        least_time(&self.sessions).unwrap_or(self.clock)
    }
}
