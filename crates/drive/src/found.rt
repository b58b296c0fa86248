// What is put into a new row is found again: nothing is supposed of the row but that it has a cell.
ghost use Rattle.std.specs.Prelude.{◌≡◌, ◌<◌, [], length, Some};

use own_store::number::Number;
use rows::key_row::KeyRow;
use rows::loose_row::LooseRow;
use store::entry::Entry;
use store::store::Store;

// The value that an empty store with room finds again.
fn found<S: Store<Key = Number, Value = u8>>(store: &mut S, key: Number, value: u8) -> Option<u8>
    ensures { S.entries store.old ≡ [] → 0 < S.bound store.old → result ≡ Some value }
{
    store.put(key, value).ok()?;
    store.find(&key)
}

pub(crate) fn found_in_key_row(
    cells: &mut [Entry<Number, u8>],
    key: Number,
    value: u8,
) -> Option<u8>
    ensures { 0 < length cells.old → result ≡ Some value }
{
    found(&mut KeyRow::new(cells), key, value)
}

pub(crate) fn found_in_loose_row(
    cells: &mut [Entry<Number, u8>],
    key: Number,
    value: u8,
) -> Option<u8>
    ensures { 0 < length cells.old → result ≡ Some value }
{
    found(&mut LooseRow::new(cells), key, value)
}
