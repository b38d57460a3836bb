ghost use Rattle.std.specs.Prelude.{◌≡◌, Bool, take};
ghost use Rattle.slots.specs.Calls.{Decides};
ghost use Rattle.slots.specs.Lists.{any, hit};

use crate::hit::Hit;

// The list of a table, as a slice.
pub fn listed<T>(slots: &[T], used: usize) -> &[T]
    ensures { result.now ≡ take used slots.now }
{
    &slots[..used.min(slots.len())]
}

// The first element that passes, with its place.
pub fn find_first<T: Copy, P: Fn(&T) -> bool>(slots: &[T], used: usize, test: P) -> Option<Hit<T>>
    requires { P.IsAlwaysCallable test }
    ensures { (passes : T → Bool) → Decides (P.post test) passes → result ≡ hit passes (take used slots.now) }
{
    let list = listed(slots, used);
    for (at, it) in list.iter().enumerate() {
        let passes = test(it);
        if passes {
            return Some(Hit { at, it: *it });
        }
    }
    None
}

// Does an element pass?
pub fn any_of<T: Copy, P: Fn(&T) -> bool>(slots: &[T], used: usize, test: P) -> bool
    requires { P.IsAlwaysCallable test }
    ensures { (passes : T → Bool) → Decides (P.post test) passes → result ≡ any passes (take used slots.now) }
{
    find_first(slots, used, test).is_some()
}
