ghost use Rattle.std.specs.Prelude.{◌≡◌, ◌≤◌, Bool, length, take, slice_set};
ghost use Rattle.std.specs.List.{remove};
ghost use Rattle.slots.specs.Calls.{Decides};
ghost use Rattle.slots.specs.Lists.{kept, appended, count_with, count_without};

// Each of these answers the new count.

// Puts x at the end of the list. Where no slot is left for it, nothing changes.
pub fn append<T: Copy>(slots: &mut [T], used: usize, x: T) -> usize
    ensures count { result ≡ count_with (length slots.old) used }
    ensures list { take result slots.new ≡ appended (length slots.old) used x (take used slots.old) }
    ensures slice { slots.new ≡ slice_set slots.old used x }
{
    if used >= slots.len() {
        return used;
    }
    slots[used] = x;
    used + 1
}

// Takes out the element at a place and closes the gap. Where none stands there, the list stays.
pub fn take_out<T: Copy>(slots: &mut [T], used: usize, at: usize) -> usize
    ensures count { result ≡ count_without (length slots.old) used at }
    ensures list { take result slots.new ≡ remove (take used slots.old) at }
{
    let end = used.min(slots.len());
    if at >= end {
        return end;
    }
    slots.copy_within(at + 1..end, at);
    end - 1
}

// Keeps the elements that pass, in their order.
// By place: it writes at one what it reads at another, and no iterator of the library keeps the elements of a slice.
pub fn retain<T: Copy, P: Fn(&T) -> bool>(slots: &mut [T], used: usize, test: P) -> usize
    requires { P.IsAlwaysCallable test }
    ensures within { result ≤ used }
    ensures fits { result ≤ length slots.old }
    ensures list { (passes : T → Bool) → Decides (P.post test) passes → take result slots.new ≡ kept passes (take used slots.old) }
{
    let end = used.min(slots.len());
    let mut n = 0;
    for i in 0..end {
        let x = slots[i];
        let keep = test(&x);
        if keep {
            slots[n] = x;
            n += 1;
        }
    }
    n
}
