// The access type over which a UE registers or a session runs.
ghost use Rattle.identity.specs.Words.{access_of};

use crate::value::Value;
use crate::word::word;

#[derive(Clone, Copy, PartialEq, Eq, Debug)]
pub enum Access {
    ThreeGpp,
    NonThreeGpp,
}

impl Value for Access {
    ghost written = { access_of };

    fn read(bytes: &[u8]) -> Option<Access> {
        word(
            bytes,
            &[
                (b"3gpp", Access::ThreeGpp),
                (b"non-3gpp", Access::NonThreeGpp),
            ],
        )
    }
}
