// Cutting an input: an empty line ends a piece, and so does the end of the input where it has bytes.
ghost use Rattle.std.specs.Prelude.{◌≡◌, ◌≤◌, true, length};
ghost use Rattle.std.specs.Iterator.{YieldsFirstBy, item_count};
ghost use Rattle.checker.specs.Pieces.{up_to, pieces_of};

use std::marker::Model;

// The pieces of an input that are still to come.
#[derive(Drop)]
pub struct Pieces<'a> {
    rest: &'a [u8],
}

// Clauses see the pieces.
impl<'a> Model for Pieces<'a> {
    ghost use Rattle.std.specs.Prelude.{ℕ, List};
    ghost use Rattle.checker.specs.Pieces.{pieces_of};

    ghost Value = { List (List ℕ) };

    ghost view = { λ p. pieces_of p.rest.now };
}

// How many bytes stand before the first empty line: a line feed that follows a line feed or begins the text.
fn piece_end(text: &[u8]) -> usize
    ensures ends { result ≡ up_to true text.now }
    ensures within { result ≤ length text.now }
{
    match text {
        [first, rest @ ..] if *first != b'\n' => text
            .iter()
            .zip(rest)
            .position(|(before, byte)| *before == b'\n' && *byte == b'\n')
            .map_or(text.len(), |i| i + 1),
        _ => 0,
    }
}

impl<'a> Pieces<'a> {
    pub fn new(input: &'a [u8]) -> Pieces<'a>
        ensures { result ≡ pieces_of input.now }
    {
        Pieces { rest: input }
    }
}

impl<'a> Iterator for Pieces<'a> {
    type Item = &'a [u8];

    ghost next_gives = { YieldsFirstBy (λ x. x.now) (λ pieces. pieces) };

    ghost remaining = { item_count (λ pieces. pieces) };

    fn next(&mut self) -> Option<&'a [u8]> {
        let rest = self.rest;
        if rest.is_empty() {
            return None;
        }
        let end = piece_end(rest);
        self.rest = &rest[(end + 1).min(rest.len())..];
        Some(&rest[..end])
    }
}
