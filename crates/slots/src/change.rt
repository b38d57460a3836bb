ghost use Rattle.std.specs.Prelude.{◌≡◌, Bool, map, take};
ghost use Rattle.slots.specs.Calls.{Decides, Makes};
ghost use Rattle.slots.specs.Lists.{any, at_first, changed_at, one};

use crate::search::find_first;

// Changes each element of the list.
pub fn edit_all<T: Copy, E: Fn(&mut T)>(slots: &mut [T], used: usize, change: E)
    requires { E.IsAlwaysCallable change }
    ensures { (makes : T → T) → Makes (E.post change) makes → take used slots.new ≡ map makes (take used slots.old) }
{
    let end = used.min(slots.len());
    for x in &mut slots[..end] {
        change(x);
    }
}

// Changes the slot at a place, and nothing where the slice ends before it.
pub fn edit_at<T: Copy, E: FnOnce(&mut T)>(slots: &mut [T], at: usize, change: E)
    requires { E.IsAlwaysCallable change }
    ensures { (makes : T → T) → Makes (E.post change) makes → slots.new ≡ changed_at at makes slots.old }
{
    if at < slots.len() {
        change(&mut slots[at]);
    }
}

// Changes the first element that passes, and tells whether there is one.
pub fn edit_first<T: Copy, P: Fn(&T) -> bool, E: FnOnce(&mut T)>(
    slots: &mut [T],
    used: usize,
    test: P,
    change: E,
) -> bool
    requires test { P.IsAlwaysCallable test }
    requires change { E.IsAlwaysCallable change }
    ensures answer { (passes : T → Bool) → Decides (P.post test) passes → result ≡ any passes (take used slots.old) }
    ensures list { (passes : T → Bool) (makes : T → T) → Decides (P.post test) passes → Makes (E.post change) makes
        → take used slots.new ≡ at_first passes (λ x. one (makes x)) (take used slots.old) }
{
    match find_first(slots, used, test) {
        None => false,
        Some(hit) => {
            edit_at(slots, hit.at, change);
            true
        }
    }
}
