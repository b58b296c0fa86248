// What a text lists up to its end.
ghost use Rattle.std.specs.Prelude.{◌≡◌, ◌≤◌, [], List, length, IfOk};
ghost use Rattle.reader.specs.Readings.{Reading, at_most_at};

use crate::lines::Lines;
use few::few::Few;
use identity::snssai::Snssai;
use refusal::{Reason, Refusal};

// What stands in the place of a slice until there is one.
pub(crate) const NO_SLICE: Snssai = Snssai {
    sst: 0,
    sd: 0xFF_FFFF,
};

// One of at most N items that a text lists. Its reading is given a G besides the lines.
pub(crate) trait Item<G: Copy, const N: usize>: Copy {
    // what stands in the places that are free
    const FILLER: Self;

    // the item that comes, after those that were read
    ghost item_at: { G → List Self → Reading Self };

    fn read(lines: &mut Lines, before: &Few<Self, N>, given: G) -> Result<Self, Refusal>
        ensures { (result, lines.new) ≡ item_at given before.now lines.old };
}

// One item or more, up to the end of the text, and at most N.
#[tactic(auto, using(crate::proofs::Turns::started, crate::proofs::Turns::again, crate::proofs::Turns::falls))]
pub(crate) fn all_items<T: Item<G, N>, G: Copy, const N: usize>(
    lines: &mut Lines,
    given: G,
) -> Result<Few<T, N>, Refusal>
    ensures reads { (result, lines.new) ≡ at_most_at N (T.item_at given) [] lines.old }
    ensures few { IfOk result (λ xs. length xs ≤ N) }
{
    let mut items = Few::new(T::FILLER);
    loop {
        let line = lines.line();
        let item = T::read(lines, &items, given)?;
        items.push(item).map_err(|_| Reason::TooMany.at(line))?;
        if !lines.more() {
            return Ok(items);
        }
    }
}
