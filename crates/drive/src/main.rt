// Drives each make of store and a simple model through the same steps, and counts the answers that differ.
#![tactic(auto)]

mod dice;
mod found;
mod model;
mod tally;
mod trial;

use crate::found::{found_in_key_row, found_in_loose_row};
use crate::tally::Tally;
use crate::trial::Trial;
use own_store::number::Number;
use own_store::single::Single;
use rows::key_row::KeyRow;
use rows::loose_row::LooseRow;
use std::io;
use store::entry::Entry;
use store::store::Store;

const CELLS: usize = 64;

// How many of the cells a row is lent.
const SIZES: [usize; 6] = [0, 1, 2, 7, 30, CELLS];

fn cells() -> [Entry<Number, u8>; CELLS] {
    let key = Number { value: 9 };
    [Entry { key, value: 9 }; CELLS]
}

fn tell(rt: &HostRuntime, what: &str, size: usize, tally: Tally) -> io::Result<()> {
    println!(rt; "{what} of {size}: {tally}")
}

// Runs the steps on one make of store, and tells what came of it.
fn drive<S: Store<Key = Number, Value = u8> + Drop>(
    rt: &HostRuntime,
    make: &str,
    size: usize,
    store: S,
) -> io::Result<Trial<S>> {
    let mut trial = Trial::new(store, size);
    let tally = trial.run();
    tell(rt, make, size, tally)?;
    Ok(trial)
}

fn main(rt: HostRuntime) -> io::Result<()> {
    for size in SIZES {
        let mut cells = cells();
        let trial = drive(&rt, "key row", size, KeyRow::new(&mut cells[..size]))?;
        tell(&rt, "next of a key row", size, trial.ask_next())?;
        tell(&rt, "walk of a key row", size, trial.walk())?;
    }
    for size in SIZES {
        let mut cells = cells();
        drive(&rt, "loose row", size, LooseRow::new(&mut cells[..size]))?;
    }
    let trial = drive(&rt, "single", 1, Single::new())?;
    tell(&rt, "next of a single", 1, trial.ask_next())?;
    let key = Number { value: 200 };
    if let Some(value) = found_in_key_row(&mut cells(), key, 7) {
        println!(rt; "a new key row finds {value} again")?;
    }
    if let Some(value) = found_in_loose_row(&mut cells(), key, 8) {
        println!(rt; "a new loose row finds {value} again")?;
    }
    Ok(())
}
