// A key of one number, in the order of numbers.
ghost use Rattle.std.specs.Prelude.{◌<◌};

use store::key::Key;

#[derive(Clone, Copy, PartialEq, Eq, PartialOrd, Ord, Debug)]
pub struct Number {
    pub value: u8,
    ghost octet: { value < 256 },
}

impl Key for Number {
    ghost use Rattle.own_store.specs.Numbers.{one_number};

    fn successor(&self) -> Option<Number> {
        self.value.checked_add(1).map(|value| Number { value })
    }

    ghost one = { one_number };
}
