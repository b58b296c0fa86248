// The lines of a text, each a key and a value.
ghost use Rattle.std.specs.Prelude.{◌≡◌, ℕ, ◌+◌, ◌^◌, ◌<◌, ◌≤◌, List, length, IfSome, IfOk};
ghost use Rattle.std.specs.Option.{option_map};
ghost use Rattle.reader.specs.Lines.{value_and_rest, viewed, seen, more?, value_at};
ghost use Rattle.reader.specs.Readings.{field_at, number_at};

use identity::decimal::decimal;
use identity::value::Value;
use refusal::{Reason, Refusal};
use std::marker::Model;

// A place in a text, at the start of a line.
#[derive(Drop)]
pub(crate) struct Lines<'a> {
    // what is left of the text
    rest: &'a [u8],
    // the number of the line that comes, from 1
    line: usize,
}

impl<'a> Model for Lines<'a> {
    ghost Value = { List ℕ × ℕ };

    ghost view = { λ s. (s.rest.now, s.line) };

    ghost invariant = { λ s. s.line + length s.rest.now ≤ 2 ^ 63 };
}

// The value that the first line has under a key, and the text after that line.
fn split<'a>(text: &'a [u8], key: &[u8]) -> Option<(&'a [u8], &'a [u8])>
    ensures splits { option_map viewed result ≡ value_and_rest key.now text.now }
    ensures less { IfSome result (λ s. length s.1.now < length text.now) }
{
    let end = text.iter().position(|b| *b == b'\n')?;
    let value = text[..end].strip_prefix(key)?;
    Some((value, &text[end + 1..]))
}

impl<'a> Lines<'a> {
    pub(crate) fn new(text: &'a [u8]) -> Lines<'a>
        ensures { result ≡ (text.now, 1) }
    {
        Lines {
            rest: text,
            line: 1,
        }
    }

    // The number of the line that comes.
    pub(crate) fn line(&self) -> usize
        ensures { result ≡ self.now.1 }
    {
        self.line
    }

    // Whether the text goes on.
    pub(crate) fn more(&self) -> bool
        ensures { result ≡ more? self.now }
    {
        !self.rest.is_empty()
    }

    // The value of the line that comes, which must begin with the key.
    fn value(&mut self, key: &[u8]) -> Result<&'a [u8], Refusal>
        ensures { (seen result, self.new) ≡ value_at key.now self.old }
    {
        let (value, rest) = split(self.rest, key).ok_or(Reason::MissingKey.at(self.line))?;
        self.rest = rest;
        self.line += 1;
        Ok(value)
    }

    // The value of the line that comes, of a kind that has its own way of writing.
    #[tactic(auto, unfolding(crate::specs::Readings::field_at))]
    pub(crate) fn field<V: Value>(&mut self, key: &[u8]) -> Result<V, Refusal>
        ensures { (result, self.new) ≡ field_at key.now V.written self.old }
    {
        let line = self.line;
        let value = self.value(key)?;
        V::read(value).ok_or(Reason::UnlawfulValue.at(line))
    }

    // The value of the line that comes, a number of at most `most`.
    #[tactic(auto, unfolding(crate::specs::Readings::field_at))]
    pub(crate) fn number(&mut self, key: &[u8], most: u32) -> Result<u32, Refusal>
        ensures reads { (result, self.new) ≡ number_at key.now most self.old }
        ensures within { IfOk result (λ n. n ≤ most) }
    {
        let line = self.line;
        let value = self.value(key)?;
        decimal(value, u64::from(most))
            .and_then(|n| u32::try_from(n).ok())
            .ok_or(Reason::UnlawfulValue.at(line))
    }
}
