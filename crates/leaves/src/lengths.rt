// Decimal numbers: content lengths.
ghost use Rattle.std.specs.Prelude.{◌≡◌, ◌+◌, ◌-◌, ◌*◌, ◌≤◌, min};
ghost use Rattle.std.specs.List.{list_all};
ghost use Rattle.leaves.specs.Class.{digit};
ghost use Rattle.leaves.specs.Number.{content_length, is_decimal};

use crate::classes;

// The number n with the digit x behind it, or the largest number.
fn with_digit(n: u64, x: u8) -> u64
    requires { (48 ≤ x) × (x ≤ 57) }
    ensures { result ≡ min (n * 10 + (x - 48)) 18446744073709551615 }
{
    n.saturating_mul(10).saturating_add(u64::from(x - b'0'))
}

// The lesser of the decimal number and the largest; 0 for no octet, and where any octet is no digit.
pub fn content_length(value: &[u8]) -> u64
    ensures { result ≡ content_length value.now }
{
    let mut n = 0;
    for x in value {
        if !classes::is_digit(*x) {
            return 0;
        }
        n = with_digit(n, *x);
    }
    n
}

fn all_digits(value: &[u8]) -> bool
    ensures { result ≡ list_all digit value.now }
{
    value.iter().all(|x| classes::is_digit(*x))
}

// Whether a text is one or more digits.
#[tactic(auto, using(crate::proofs::Words::all_is), unfolding(crate::specs::Number::is_decimal))]
pub fn is_decimal(value: &[u8]) -> bool
    ensures { result ≡ is_decimal value.now }
{
    !value.is_empty() && all_digits(value)
}
