// Walking a store: each step asks from the successor of the key before.
ghost use Rattle.std.specs.Prelude.{◌≡◌, ◌≤◌, length};
ghost use Rattle.store.specs.Maps.{keys_not_below};
ghost use Rattle.store.specs.Orders.{below};
ghost use Rattle.store.specs.Walks.{walked};

use crate::key::Key;
use crate::store::{Store, WalkingStore};

// The held keys that are not below `from`, each once and in order, as many as there are places; how many they are.
pub fn keys_from<S: WalkingStore>(store: &S, from: S::Key, places: &mut [S::Key]) -> usize
    ensures within { result ≤ length places.old }
    ensures walks { (result, places.new) ≡ walked (keys_not_below (below S.Key.cmp) (S.entries store.now) from) places.old }
{
    let most = places.len().min(store.size());
    let mut next = Some(from);
    for (met, place) in places[..most].iter_mut().enumerate() {
        let Some(key) = next.and_then(|start| store.next(&start)) else {
            return met;
        };
        *place = key;
        next = key.successor();
    }
    most
}
