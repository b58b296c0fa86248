// A slice as it is written: two upper-case hexadecimal digits, or two, a hyphen and six.
ghost use Rattle.std.specs.Prelude.{◌≡◌};
ghost use Rattle.identity.specs.Slices.{nibble_of, octet_of, snssai, slice_of};

use crate::class::Class;
use crate::snssai::Snssai;
use crate::value::Value;

const NO_SD: u32 = 0xFF_FFFF;

fn nibble(b: u8) -> Option<u8>
    ensures { result ≡ nibble_of b }
{
    match Class::from(b) {
        Class::Digit => Some(b - b'0'),
        Class::Letter => Some(b - b'A' + 10),
        Class::Other => None,
    }
}

fn octet(high: u8, low: u8) -> Option<u8>
    ensures { result ≡ octet_of high low }
{
    Some(nibble(high)? * 16 + nibble(low)?)
}

impl Snssai {
    // The slice of a type and a differentiator, unless that has more than 24 bits.
    pub fn new(sst: u8, sd: u32) -> Option<Snssai>
        ensures { result ≡ snssai sst sd }
    {
        if sd <= NO_SD {
            Some(Snssai { sst, sd })
        } else {
            None
        }
    }
}

impl Value for Snssai {
    ghost written = { slice_of };

    fn read(bytes: &[u8]) -> Option<Snssai> {
        match bytes {
            [a, b] => Snssai::new(octet(*a, *b)?, NO_SD),
            [a, b, b'-', c, d, e, f, g, h] => {
                let sst = octet(*a, *b)?;
                let high = octet(*c, *d)?;
                let mid = octet(*e, *f)?;
                let low = octet(*g, *h)?;
                Snssai::new(sst, u32::from_be_bytes([0, high, mid, low]))
            }
            _ => None,
        }
    }
}
