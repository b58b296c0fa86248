// A UE by its SUPI, an IMSI of 5 to 15 decimal digits.
ghost use Rattle.std.specs.Prelude.{◌^◌, ◌<◌, ◌≤◌};

// The number of digits and what they write: equal exactly where the digit strings are, leading zeros counted.
#[derive(Clone, Copy, PartialEq, Eq, PartialOrd, Ord, Debug)]
pub struct Supi {
    pub digits: u8,
    pub value: u64,
    ghost least: { 5 ≤ digits },
    ghost most: { digits ≤ 15 },
    ghost fits: { value < 10 ^ digits },
}
