// At most N items in the order in which they came, in place.
use std::marker::Model;

#[derive(Drop)]
pub struct Few<T: Copy, const N: usize> {
    items: [T; N],
    len: usize,
}

// Clauses see the items.
impl<T: Copy, const N: usize> Model for Few<T, N> {
    ghost use Rattle.std.specs.Prelude.{◌≡◌, ◌≤◌, List, length, take};

    ghost Value = { List T };

    ghost view = { λ f. take f.len f.items };

    ghost invariant = { λ f. (f.len ≤ N) × (length f.items ≡ N) };
}

// There is no place for what was to be added.
#[derive(Clone, Copy, PartialEq, Eq, Debug)]
pub struct Full;

impl<T: Copy, const N: usize> Few<T, N> {
    ghost use Rattle.std.specs.Prelude.{◌≡◌, ◌≤◌, [], length};
    ghost use Rattle.few.specs.Fews.{pushed, extended};

    // No items; the filler stands in the places that are free.
    pub fn new(filler: T) -> Self
        ensures { result ≡ [] }
    {
        Few {
            items: [filler; N],
            len: 0,
        }
    }

    // One more item.
    pub fn push(&mut self, item: T) -> Result<(), Full>
        ensures pushes { (result, self.new) ≡ pushed N item self.old }
        ensures few { length self.new ≤ N }
    {
        if self.len == N {
            return Err(Full);
        }
        self.items[self.len] = item;
        self.len += 1;
        Ok(())
    }

    // All of the items after those that are held, or none of them.
    pub fn extend(&mut self, items: &[T]) -> Result<(), Full>
        ensures extends { (result, self.new) ≡ extended N items.now self.old }
        ensures few { length self.new ≤ N }
    {
        if items.len() > N - self.len {
            return Err(Full);
        }
        let end = self.len + items.len();
        let places = &mut self.items[..];
        places[self.len..end].copy_from_slice(items);
        self.len = end;
        Ok(())
    }

    pub fn as_slice(&self) -> &[T]
        ensures value { result.now ≡ self.now }
        ensures few { length result.now ≤ N }
    {
        &self.items[..self.len]
    }
}
