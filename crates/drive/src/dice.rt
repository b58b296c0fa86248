// Numbers that look random and are the same in every run.
#[derive(Drop)]
pub(crate) struct Dice {
    state: u32,
}

impl Dice {
    pub(crate) fn new(seed: u32) -> Dice {
        Dice { state: seed }
    }

    // A number below 256: the second byte, since the last ones repeat soon.
    pub(crate) fn roll(&mut self) -> u8 {
        self.state = self.state.wrapping_mul(1664525).wrapping_add(1013904223);
        self.state.to_be_bytes()[1]
    }
}
