// The plain numbers that name an NF, a PDU session or a subscriber, each with its range.
ghost use Rattle.std.specs.Prelude.{◌<◌};

// A consumer, an AMF or SMF: 0 to 65,535.
#[derive(Clone, Copy, PartialEq, Eq, PartialOrd, Ord, Debug)]
pub struct NfNumber {
    pub number: u16,
    ghost range: { number < 65536 },
}

// A PDU session of a UE: 0 to 255.
#[derive(Clone, Copy, PartialEq, Eq, PartialOrd, Ord, Debug)]
pub struct SessionId {
    pub number: u8,
    ghost range: { number < 256 },
}

// Whoever is notified of a threshold: 0 to 65,535.
#[derive(Clone, Copy, PartialEq, Eq, PartialOrd, Ord, Debug)]
pub struct SubscriberNumber {
    pub number: u16,
    ghost range: { number < 65536 },
}
