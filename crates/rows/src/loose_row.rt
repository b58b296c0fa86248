// Entries in no order: a new one goes to the first free cell, and the last fills the gap of one that is taken.
ghost use Rattle.std.specs.Prelude.{◌≡◌, [], length};
ghost use Rattle.store.specs.Orders.{below};
ghost use Rattle.store.proofs.Keys.{key_order};
ghost use Rattle.rows.specs.Cells.{cell_count};
ghost use Rattle.rows.specs.LooseRows.{sorted, Distinct, Spots, distinct_prop, ascending_sorted, few_sorted};

use crate::cells::Cells;
use refusal::{Reason, Refusal};
use store::entry::Entry;
use store::key::Key;
use store::store::Store;

#[derive(Drop)]
pub struct LooseRow<'a, K: Key, V> {
    cells: Cells<'a, Entry<K, V>>,
    ghost distinct: { Distinct (below K.cmp) cells.items } by { distinct_prop (below K.cmp) cells.items },
}

impl<'a, K: Key, V: Copy> LooseRow<'a, K, V> {
    // An empty store of as many cells, whatever they held before.
    pub fn new(cells: &'a mut [Entry<K, V>]) -> Self
        ensures empty { result.cells.items ≡ [] }
        ensures room { cell_count result.cells ≡ length cells.old }
    {
        LooseRow {
            cells: Cells::new(cells),
        }
    }

    // The place of the entry that has the key.
    fn spot(&self, key: &K) -> Option<usize>
        ensures { Spots (below K.cmp) self.now.cells.items key.now result }
    {
        let mut entries = self.cells.as_slice().iter();
        entries.position(|entry| entry.key == *key)
    }
}

impl<'a, K: Key, V: Copy> Store for LooseRow<'a, K, V> {
    type Key = K;

    type Value = V;

    ghost entries = { λ s. sorted (below K.cmp) s.cells.items };

    ghost bound = { λ s. cell_count s.cells };

    ghost ascends = { λ s. ascending_sorted (key_order K.total K.one) s.cells.items };

    ghost bounded = { λ s. few_sorted (key_order K.total K.one) s.cells };

    fn capacity(&self) -> usize {
        self.cells.capacity()
    }

    fn size(&self) -> usize {
        self.cells.as_slice().len()
    }

    fn find(&self, key: &K) -> Option<V> {
        let place = self.spot(key)?;
        Some(self.cells.as_slice()[place].value)
    }

    fn put(&mut self, key: K, value: V) -> Result<(), Refusal> {
        let entry = Entry { key, value };
        match self.spot(&key) {
            Some(place) => self.cells.set(place, entry),
            None if self.cells.is_full() => return Err(Reason::StoreFull.at(0)),
            None => self.cells.push(entry),
        }
        Ok(())
    }

    fn take(&mut self, key: &K) -> bool {
        let Some(place) = self.spot(key) else {
            return false;
        };
        self.cells.swap_remove(place);
        true
    }
}
