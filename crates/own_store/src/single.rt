// A store that holds at most one entry.
ghost use Rattle.std.specs.Prelude.{◌≡◌, []};
ghost use Rattle.store.specs.Orders.{below};
ghost use Rattle.own_store.specs.Singles.{content, one_ascends, one_at_most};

use refusal::{Reason, Refusal};
use store::entry::Entry;
use store::key::Key;
use store::store::{Store, WalkingStore};

#[derive(Drop)]
pub struct Single<K: Drop, V: Drop> {
    entry: Option<Entry<K, V>>,
}

impl<K: Key + Drop, V: Copy + Drop> Single<K, V> {
    pub fn new() -> Self
        ensures { content result ≡ [] }
    {
        Single { entry: None }
    }
}

impl<K: Key + Drop, V: Copy + Drop> Store for Single<K, V> {
    type Key = K;

    type Value = V;

    ghost entries = { content };

    ghost bound = { λ _. 1 };

    fn capacity(&self) -> usize {
        1
    }

    fn size(&self) -> usize {
        usize::from(self.entry.is_some())
    }

    fn find(&self, key: &K) -> Option<V> {
        self.entry
            .filter(|entry| entry.key == *key)
            .map(|entry| entry.value)
    }

    fn put(&mut self, key: K, value: V) -> Result<(), Refusal> {
        if self.entry.is_some_and(|entry| entry.key != key) {
            return Err(Reason::StoreFull.at(0));
        }
        self.entry = Some(Entry { key, value });
        Ok(())
    }

    fn take(&mut self, key: &K) -> bool {
        self.entry.take_if(|entry| entry.key == *key).is_some()
    }

    ghost ascends = { λ s. one_ascends (below K.cmp) s.entry };

    ghost bounded = { λ s. one_at_most s.entry };
}

impl<K: Key + Drop, V: Copy + Drop> WalkingStore for Single<K, V> {
    fn next(&self, from: &K) -> Option<K> {
        self.entry
            .filter(|entry| entry.key.cmp(from).is_ge())
            .map(|entry| entry.key)
    }
}
