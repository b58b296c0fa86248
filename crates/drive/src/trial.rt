// A store and a model that take the same steps.
use crate::dice::Dice;
use crate::model::Model;
use crate::tally::Tally;
use own_store::number::Number;
use store::store::{Store, WalkingStore};
use store::walk::keys_from;

enum Step {
    Put,
    Take,
    Find,
}

impl Step {
    fn drawn(roll: u8) -> Step {
        match roll % 20 {
            0..=9 => Step::Put,
            10..=13 => Step::Take,
            _ => Step::Find,
        }
    }
}

#[derive(Drop)]
pub(crate) struct Trial<S: Drop> {
    store: S,
    model: Model,
    dice: Dice,
    tally: Tally,
}

impl<S: Store<Key = Number, Value = u8> + Drop> Trial<S> {
    // The store must be empty, and have this capacity.
    pub(crate) fn new(store: S, capacity: usize) -> Trial<S> {
        Trial {
            store,
            model: Model::new(capacity),
            dice: Dice::new(1),
            tally: Tally::default(),
        }
    }

    // Two thousand steps.
    pub(crate) fn run(&mut self) -> Tally {
        self.compare_capacities();
        for _step in 0..2000 {
            self.step();
        }
        self.compare_capacities();
        self.tally
    }

    fn compare_capacities(&mut self) {
        self.tally
            .compare(self.store.capacity(), self.model.capacity());
    }

    // A put, a take or a find, and then the size.
    fn step(&mut self) {
        let step = Step::drawn(self.dice.roll());
        let key = self.dice.roll() % 64;
        let value = self.dice.roll();
        match step {
            Step::Put => self.put(key, value),
            Step::Take => {
                let taken = self.store.take(&Number { value: key });
                self.tally.compare(taken, self.model.take(key));
            }
            Step::Find => {
                let found = self.store.find(&Number { value: key });
                self.tally.compare(found, self.model.find(key));
            }
        }
        self.tally.compare(self.store.size(), self.model.size());
    }

    // A store that has no room refuses with number 16 at line 0.
    fn put(&mut self, key: u8, value: u8) {
        let answer = self.store.put(Number { value: key }, value);
        let wanted = self.model.put(key, value);
        if answer.is_err() {
            self.tally.refuse();
        }
        self.tally.compare(
            answer.map_err(|refusal| (refusal.reason.number(), refusal.line)),
            wanted.map_err(|_| (16, 0)),
        );
    }
}

impl<S: WalkingStore + Store<Key = Number, Value = u8> + Drop> Trial<S> {
    // The question for the next key, from before the first to past the last.
    pub(crate) fn ask_next(&self) -> Tally {
        let mut tally = Tally::default();
        for from in 0..=255u8 {
            let next = self.store.next(&Number { value: from });
            tally.compare(next.map(|key| key.value), self.model.next(from));
        }
        tally
    }

    // A walk over all keys: each key of the model is met once, in order, and no other.
    pub(crate) fn walk(&self) -> Tally {
        let mut tally = Tally::default();
        let mut places = [Number { value: 0 }; 64];
        let met = keys_from(&self.store, Number { value: 0 }, &mut places);
        tally.compare(met, self.model.size());
        let mut from = 0;
        for key in &places[..met] {
            tally.compare(Some(key.value), self.model.next(from));
            from = key.value.saturating_add(1);
        }
        tally
    }
}
