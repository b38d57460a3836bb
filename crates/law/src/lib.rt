#![tactic(auto)]

ghost use Rattle.law.specs.Law.{Law};
ghost use Rattle.law.specs.Sample.{SampleRun};
ghost use Rattle.law.specs.Tempting.{Tempting};

use keys::key::Key;

// The law of the store, whole, at any kinds of key and row: its contract is the statement.
pub fn law_stands<K: Key, R>()
    ensures { Law K R K.Key.number }
{}

// A day written out is a run, with the answers written beside its calls: the law speaks of something.
pub fn sample_run()
    ensures { SampleRun }
{}

// What three tempting errors do to a seller.
pub fn tempting_errors()
    ensures { Tempting }
{}
