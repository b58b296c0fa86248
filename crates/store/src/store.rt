// Stores, by the map from keys to values that each stands for.
ghost use Rattle.std.specs.Prelude.{◌≡◌, ℕ, ◌≤◌, List, length};
ghost use Rattle.store.specs.declared.entry.Entry.{Entry};
ghost use Rattle.store.specs.Maps.{Ascending, lookup, least_from, putting, taking};
ghost use Rattle.store.specs.Orders.{below};

use crate::key::Key;
use refusal::Refusal;

pub trait Store {
    type Key: Key;

    type Value: Copy;

    // the map: the entries in ascending order of their keys
    ghost entries: { Self → List (Entry Self.Key Self.Value) };

    // how many keys it can hold
    ghost bound: { Self → ℕ };

    fn capacity(&self) -> usize
        ensures { result ≡ bound self.now };

    // The number of keys.
    fn size(&self) -> usize
        ensures { result ≡ length (entries self.now) };

    fn find(&self, key: &Self::Key) -> Option<Self::Value>
        ensures { result ≡ lookup (below Self.Key.cmp) (entries self.now) key.now };

    // Sets the value of a key; refused where the store is full and the key is new.
    fn put(&mut self, key: Self::Key, value: Self::Value) -> Result<(), Refusal>
        ensures room { bound self.new ≡ bound self.old }
        ensures puts { (result, entries self.new) ≡ putting (below Self.Key.cmp) (bound self.old) (entries self.old) key value };

    // Removes a key, and answers whether it was held.
    fn take(&mut self, key: &Self::Key) -> bool
        ensures room { bound self.new ≡ bound self.old }
        ensures takes { (result, entries self.new) ≡ taking (below Self.Key.cmp) (entries self.old) key.now };

    // each value of the type stands for a map, with room for its keys
    ghost ascends: { (s : Self) → Ascending (below Self.Key.cmp) (entries s) };

    ghost bounded: { (s : Self) → length (entries s) ≤ bound s };
}

// A store that can be walked in the order of its keys.
pub trait WalkingStore: Store {
    // The least held key that is not below the given one.
    fn next(&self, from: &Self::Key) -> Option<Self::Key>
        ensures { result ≡ least_from (below Self.Key.cmp) (Self.entries self.now) from.now };
}
