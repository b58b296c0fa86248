// Why a call is refused, and at which line of its text.
#![tactic(auto)]

ghost use Rattle.std.specs.Prelude.{◌≡◌};
ghost use Rattle.refusal.specs.Refusals.{number, refusal};

// One case for each reason, in the order of their numbers.
#[derive(Clone, Copy, PartialEq, Eq, Debug)]
pub enum Reason {
    MissingKey = 1,
    UnlawfulValue = 2,
    TooMany = 3,
    ShortAnswer = 4,
    ShortNotifications = 5,
    AlreadyConfigured = 6,
    StoreInUse = 7,
    SliceTwice = 8,
    EntriesBelowMax = 9,
    StoreTooSmall = 10,
    UnknownSlice = 11,
    ThresholdOutOfRange = 12,
    AlreadySubscribed = 13,
    TooManySubscriptions = 14,
    NoSubscription = 15,
    StoreFull = 16,
}

impl Reason {
    // The number under which a reason is printed.
    pub fn number(self) -> u8
        ensures { result ≡ number self }
    {
        self as u8
    }

    pub fn at(self, line: usize) -> Refusal
        ensures { result ≡ refusal self line }
    {
        Refusal { reason: self, line }
    }
}

// Lines count from 1; 0 stands where no line of a text is at fault.
#[derive(Clone, Copy, PartialEq, Eq, Debug)]
pub struct Refusal {
    pub reason: Reason,
    pub line: usize,
}
