ghost use Rattle.std.specs.Prelude.{◌≡◌, ◌<◌, ◌+◌, ◌^◌, false, length, IfOk};
ghost use Rattle.std.specs.List.{All};
ghost use Rattle.zr_simplex.specs.Binaries.{number_of};

use std::alloc::{AllocError, Global};

/// Zero in binary, with so many digits.
pub(crate) fn zero_digits(alloc: Global, count: usize) -> Result<Vec<bool>, AllocError>
    ensures len { IfOk result (λ digits. length digits.items ≡ count) }
    ensures zeros { IfOk result (λ digits. All (λ digit. digit ≡ false) digits.items) }
{
    vec![in alloc; false; count]
}

/// Adds one to a number in binary, whose lowest digit comes first.
pub(crate) fn raise(digits: &mut [bool])
    requires { number_of digits.old + 1 < 2 ^ length digits.old }
    ensures number { number_of digits.new ≡ number_of digits.old + 1 }
    ensures len { length digits.new ≡ length digits.old }
{
    for i in 0..digits.len() {
        if !digits[i] {
            digits[i] = true;
            return;
        }
        digits[i] = false;
    }
    unreachable!()
}
