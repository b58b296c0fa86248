// A UE as it is written: `imsi-` and its digits.
ghost use Rattle.std.specs.Prelude.{◌≡◌};
ghost use Rattle.identity.specs.Subscribers.{supi_of, imsi_of};

use crate::decimal::digits;
use crate::supi::Supi;
use crate::value::Value;

impl Supi {
    // The UE of an IMSI in digits, unless there are too few, too many, or a byte is no digit.
    pub fn new(imsi: &[u8]) -> Option<Supi>
        ensures { result ≡ imsi_of imsi.now }
    {
        let count = u8::try_from(imsi.len()).ok()?;
        if !(5..=15).contains(&count) {
            return None;
        }
        Some(Supi {
            digits: count,
            value: digits(imsi, u64::MAX)?,
        })
    }
}

impl Value for Supi {
    ghost written = { supi_of };

    fn read(bytes: &[u8]) -> Option<Supi> {
        Supi::new(bytes.strip_prefix(b"imsi-")?)
    }
}
