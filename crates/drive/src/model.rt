// A simple model of a store: what each of 64 keys has, how many have something, and how many may.

// There is no room for a new key.
#[derive(Clone, Copy, PartialEq, Eq, Debug)]
pub(crate) struct NoRoom;

#[derive(Drop)]
pub(crate) struct Model {
    values: [Option<u8>; 64],
    held: usize,
    capacity: usize,
}

impl Model {
    pub(crate) fn new(capacity: usize) -> Model {
        Model {
            values: [None; 64],
            held: 0,
            capacity,
        }
    }

    pub(crate) fn capacity(&self) -> usize {
        self.capacity
    }

    pub(crate) fn size(&self) -> usize {
        self.held
    }

    pub(crate) fn find(&self, key: u8) -> Option<u8> {
        self.values.get(usize::from(key)).copied().flatten()
    }

    // The least key that has something, from the given one on.
    pub(crate) fn next(&self, from: u8) -> Option<u8> {
        (from..64).find(|key| self.find(*key).is_some())
    }

    // A key that has nothing yet needs room.
    pub(crate) fn put(&mut self, key: u8, value: u8) -> Result<(), NoRoom> {
        let place = self.values.get_mut(usize::from(key)).ok_or(NoRoom)?;
        if place.is_none() {
            if self.held >= self.capacity {
                return Err(NoRoom);
            }
            self.held = self.held.saturating_add(1);
        }
        *place = Some(value);
        Ok(())
    }

    // Whether the key had something.
    pub(crate) fn take(&mut self, key: u8) -> bool {
        let place = self.values.get_mut(usize::from(key));
        let taken = place.and_then(|place| place.take()).is_some();
        if taken {
            self.held = self.held.saturating_sub(1);
        }
        taken
    }
}
