// NF numbers and session IDs as they are written: in decimal.
ghost use Rattle.identity.specs.Numbers.{nf_of, session_of};

use crate::number::{NfNumber, SessionId};
use crate::value::Value;

impl Value for NfNumber {
    ghost written = { nf_of };

    fn read(bytes: &[u8]) -> Option<NfNumber> {
        let number = u16::read(bytes)?;
        Some(NfNumber { number })
    }
}

impl Value for SessionId {
    ghost written = { session_of };

    fn read(bytes: &[u8]) -> Option<SessionId> {
        let number = u8::read(bytes)?;
        Some(SessionId { number })
    }
}
