// Entries in key order without gaps.
ghost use Rattle.std.specs.Prelude.{◌≡◌, [], length};
ghost use Rattle.std.proofs.Math.Nat.{le-add_right};
ghost use Rattle.store.specs.Maps.{Ascending, place};
ghost use Rattle.store.specs.Orders.{below};
ghost use Rattle.store.proofs.Props.{ascending_prop};
ghost use Rattle.rows.specs.Cells.{cell_count};
ghost use Rattle.rows.specs.KeyRows.{Seeks};

use crate::cells::Cells;
use refusal::{Reason, Refusal};
use store::entry::Entry;
use store::key::Key;
use store::store::{Store, WalkingStore};

#[derive(Drop)]
pub struct KeyRow<'a, K: Key, V> {
    cells: Cells<'a, Entry<K, V>>,
    ghost ascends: { Ascending (below K.cmp) cells.items } by { ascending_prop (below K.cmp) cells.items },
}

impl<'a, K: Key, V: Copy> KeyRow<'a, K, V> {
    // An empty store of as many cells, whatever they held before.
    pub fn new(cells: &'a mut [Entry<K, V>]) -> Self
        ensures empty { result.cells.items ≡ [] }
        ensures room { cell_count result.cells ≡ length cells.old }
    {
        KeyRow {
            cells: Cells::new(cells),
        }
    }

    // How many keys are below this one, which is the place where it stands or would stand.
    fn place_of(&self, key: &K) -> usize
        ensures { result ≡ place (below K.cmp) self.now.cells.items key.now }
    {
        let entries = self.cells.as_slice();
        let first = entries.iter().position(|entry| entry.key.cmp(key).is_ge());
        first.unwrap_or(entries.len())
    }

    // The place of the key, or else the place where it would stand.
    fn seek(&self, key: &K) -> Result<usize, usize>
        ensures { Seeks (below K.cmp) self.now.cells.items key.now result }
    {
        let place = self.place_of(key);
        match self.cells.as_slice().get(place) {
            Some(entry) if entry.key == *key => Ok(place),
            _ => Err(place),
        }
    }
}

impl<'a, K: Key, V: Copy> Store for KeyRow<'a, K, V> {
    type Key = K;

    type Value = V;

    ghost entries = { λ s. s.cells.items };

    ghost bound = { λ s. cell_count s.cells };

    ghost ascends = { λ s. s.ascends };

    ghost bounded = { λ s. le-add_right (length s.cells.items) s.cells.free };

    fn capacity(&self) -> usize {
        self.cells.capacity()
    }

    fn size(&self) -> usize {
        self.cells.as_slice().len()
    }

    fn find(&self, key: &K) -> Option<V> {
        let place = self.seek(key).ok()?;
        Some(self.cells.as_slice()[place].value)
    }

    fn put(&mut self, key: K, value: V) -> Result<(), Refusal> {
        let entry = Entry { key, value };
        match self.seek(&key) {
            Ok(place) => self.cells.set(place, entry),
            Err(_) if self.cells.is_full() => return Err(Reason::StoreFull.at(0)),
            Err(place) => self.cells.insert(place, entry),
        }
        Ok(())
    }

    fn take(&mut self, key: &K) -> bool {
        let Ok(place) = self.seek(key) else {
            return false;
        };
        self.cells.remove(place);
        true
    }
}

impl<'a, K: Key, V: Copy> WalkingStore for KeyRow<'a, K, V> {
    fn next(&self, from: &K) -> Option<K> {
        let place = self.place_of(from);
        self.cells.as_slice().get(place).map(|entry| entry.key)
    }
}
