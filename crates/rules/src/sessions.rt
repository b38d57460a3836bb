ghost use Rattle.std.specs.Prelude.{◌≡◌, cond, nat_lt, Ok, Err};
ghost use Rattle.rules.specs.declared.answers.Refusal.TheVariants as refusal;
ghost use Rattle.rules.specs.Stores.{session_at};

use crate::answers::Refusal;
use crate::sheet::{Reading, Sheet};

impl Sheet {
    // What the session was begun with, nothing where it is closed, or that there is no such session.
    pub fn reading(&self, session: u32) -> Result<Option<Reading>, Refusal>
        ensures { result ≡ cond (nat_lt 63 session) (Err refusal.NoSession) (Ok (session_at self.now.sessions session).reading) }
    {
        let entry = self
            .sessions
            .get(session as usize)
            .ok_or(Refusal::NoSession)?;
        Ok(entry.reading)
    }
}
