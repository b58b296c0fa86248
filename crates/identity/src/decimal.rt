// Whole numbers in decimal digits.
ghost use Rattle.std.specs.Prelude.{◌≡◌, ◌≤◌, IfSome};
ghost use Rattle.identity.specs.Decimals.{decimal_of, digits_of, digit_of};

use crate::class::Class;
use crate::value::Value;

// The number that bytes write without a leading zero, if it is at most `most`.
pub fn decimal(bytes: &[u8], most: u64) -> Option<u64>
    ensures reads { result ≡ decimal_of most bytes.now }
    ensures within { IfSome result (λ n. n ≤ most) }
{
    match bytes {
        [] => None,
        [b'0', _, ..] => None,
        _ => digits(bytes, most),
    }
}

fn digit(b: u8) -> Option<u8>
    ensures { result ≡ digit_of b }
{
    match Class::from(b) {
        Class::Digit => Some(b - b'0'),
        _ => None,
    }
}

// The number that digits write, leading zeros or not, if it is at most `most`.
pub(crate) fn digits(bytes: &[u8], most: u64) -> Option<u64>
    ensures reads { result ≡ digits_of most bytes.now }
    ensures within { IfSome result (λ n. n ≤ most) }
{
    let mut value: u64 = 0;
    for b in bytes {
        let digit = u64::from(digit(*b)?);
        value = value.checked_mul(10)?.checked_add(digit)?;
        if value > most {
            return None;
        }
    }
    Some(value)
}

// An NF number or a subscriber's: 0 to 65,535.
impl Value for u16 {
    ghost written = { decimal_of 65535 };

    fn read(bytes: &[u8]) -> Option<u16> {
        u16::try_from(decimal(bytes, 65535)?).ok()
    }
}

// A session ID: 0 to 255.
impl Value for u8 {
    ghost written = { decimal_of 255 };

    fn read(bytes: &[u8]) -> Option<u8> {
        u8::try_from(decimal(bytes, 255)?).ok()
    }
}
