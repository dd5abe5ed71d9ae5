//! Decimal numbers.
ghost use Rattle.std.specs.Prelude.{◌≡◌, ◌<◌, ◌≤◌, ◌+◌, ◌*◌, ◌^◌, true, pos, IfSome, IfNone};
ghost use Rattle.std.specs.Char.{digit_value, is_ascii_digit};
ghost use Rattle.std.specs.Option.{option_map};
ghost use Rattle.ec_lex.specs.Numbers as spec;

use crate::bytes::byte_at;

/// The digit behind those of a number, where it is one and the number stays below 2^63.
fn with_digit(number: u64, digit: u8) -> Option<u64>
    requires { number < 2 ^ 63 }
    ensures digit { IfSome result (λ n. is_ascii_digit digit ≡ true) }
    ensures value { IfSome result (λ n. (n ≡ number * 10 + digit_value digit) × (n < 2 ^ 63)) }
    ensures none { IfNone result (is_ascii_digit digit ≡ true → 2 ^ 63 ≤ number * 10 + digit_value digit) }
{
    if !digit.is_ascii_digit() {
        return None;
    }
    let tens = number.checked_mul(10)?;
    let sum = tens.checked_add(u64::from(digit - b'0'))?;
    if sum < 1 << 63 { Some(sum) } else { None }
}

/// The number that a decimal up to 2^63 - 1 without needless zeros writes.
#[tactic(auto, using(crate::proofs::AtFront::Values::refused_digit), unfolding(crate::specs::Numbers::number_value))]
pub fn number_value(digits: &[u8]) -> Option<i64>
    ensures { result ≡ option_map pos (spec.number_value digits.now) }
{
    if digits.len() != 1 && byte_at(digits, 0) < b'1' {
        return None;
    }
    let mut number: u64 = 0;
    for digit in digits {
        match with_digit(number, *digit) {
            Some(more) => number = more,
            None => return None,
        }
    }
    Some(number as i64)
}
