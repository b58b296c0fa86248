// What was counted.
use std::fmt;

// How many answers were compared, how many puts were refused, and how many answers differ.
#[derive(Clone, Copy, Default)]
pub(crate) struct Tally {
    answers: u32,
    refused: u32,
    differ: u32,
}

impl Tally {
    pub(crate) fn compare<T: PartialEq + Drop>(&mut self, answer: T, wanted: T) {
        self.answers = self.answers.saturating_add(1);
        if answer != wanted {
            self.differ = self.differ.saturating_add(1);
        }
    }

    pub(crate) fn refuse(&mut self) {
        self.refused = self.refused.saturating_add(1);
    }
}

impl fmt::Display for Tally {
    fn fmt<W: fmt::Write>(&self, f: &mut fmt::Formatter<W>) -> fmt::Result {
        write!(
            f,
            "{} answers, {} refused, {} differ",
            self.answers, self.refused, self.differ
        )
    }
}
