ghost use Rattle.std.specs.Prelude.{◌≡◌, ℕ, ◌≤◌, ◌++◌, IfSome, Some, OnOk};
ghost use Rattle.text.specs.Numbers.{decimal_of, decimal_text, digits_within};

use std::alloc::AllocError;
use std::io::Write;

// The decimal number that digits write, if it is at most `limit`. Leading zeros count for nothing, and there is no sign.
pub fn decimal(digits: &[u8], limit: u64) -> Option<u64>
    ensures value { result ≡ decimal_of limit digits.now }
    ensures bound { IfSome result (λ n. n ≤ limit) }
{
    if digits.is_empty() {
        return None;
    }
    let mut n = 0u64;
    for b in digits {
        if !b.is_ascii_digit() {
            return None;
        }
        n = n.checked_mul(10)?.checked_add(u64::from(*b - b'0'))?;
        if n > limit {
            return None;
        }
    }
    Some(n)
}

// Appends a number in decimal. What is written is read back as that number, which `write!` alone does not say.
pub fn push_decimal(out: &mut Vec<u8>, n: u64) -> Result<(), AllocError>
    ensures appended { OnOk result (out.new.items ≡ out.old.items ++ decimal_text n) }
    ensures digits { decimal_text n ≡ digits_within 20 n }
    ensures back { (limit : ℕ) → n ≤ limit → decimal_of limit (decimal_text n) ≡ Some n }
{
    write!(out, "{n}").map_err(|_| AllocError)
}
