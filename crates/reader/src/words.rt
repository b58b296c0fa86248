// The words of a request and of settings.
ghost use Rattle.reader.specs.Words.{operation_of, ue_flag_of, pdu_flag_of, counted_of};

use identity::value::Value;
use identity::word::word;

#[derive(Clone, Copy, PartialEq, Eq, Debug)]
pub enum Operation {
    Ue,
    Pdu,
}

#[derive(Clone, Copy, PartialEq, Eq, Debug)]
pub enum UeFlag {
    Increase,
    Decrease,
}

#[derive(Clone, Copy, PartialEq, Eq, Debug)]
pub enum PduFlag {
    Increase,
    Decrease,
    Update,
}

// The accesses that a slice counts.
#[derive(Clone, Copy, PartialEq, Eq, Debug)]
pub enum Counted {
    ThreeGpp,
    NonThreeGpp,
    Both,
}

impl Value for Operation {
    ghost written = { operation_of };

    fn read(bytes: &[u8]) -> Option<Operation> {
        word(bytes, &[(b"ue", Operation::Ue), (b"pdu", Operation::Pdu)])
    }
}

impl Value for UeFlag {
    ghost written = { ue_flag_of };

    fn read(bytes: &[u8]) -> Option<UeFlag> {
        word(
            bytes,
            &[
                (b"increase", UeFlag::Increase),
                (b"decrease", UeFlag::Decrease),
            ],
        )
    }
}

impl Value for PduFlag {
    ghost written = { pdu_flag_of };

    fn read(bytes: &[u8]) -> Option<PduFlag> {
        word(
            bytes,
            &[
                (b"increase", PduFlag::Increase),
                (b"decrease", PduFlag::Decrease),
                (b"update", PduFlag::Update),
            ],
        )
    }
}

impl Value for Counted {
    ghost written = { counted_of };

    fn read(bytes: &[u8]) -> Option<Counted> {
        word(
            bytes,
            &[
                (b"3gpp", Counted::ThreeGpp),
                (b"non-3gpp", Counted::NonThreeGpp),
                (b"both", Counted::Both),
            ],
        )
    }
}
