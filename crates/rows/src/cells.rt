// A list that lies at the front of cells which the caller lends.
ghost use Rattle.std.specs.Prelude.{◌≡◌, ◌+◌, ◌-◌, ◌<◌, ◌≤◌, [], ◌∷◌, ◌++◌, length, slice_set, IsTrue, ◌↔◌};
ghost use Rattle.std.specs.List.{insert, remove, swap_remove};
ghost use Rattle.rows.specs.Cells.{cell_count};

use std::marker::Model;

#[derive(Drop)]
pub(crate) struct Cells<'a, T> {
    cells: &'a mut [T],
    used: usize,
}

impl<'a, T> Model for Cells<'a, T> {
    ghost use Rattle.std.specs.Prelude.{◌-◌, ◌≤◌, length, take};
    ghost use Rattle.rows.specs.Cells.{Filling};

    ghost Value = { Filling T };

    ghost view = { λ c. record { items = take c.used c.cells.now; free = length c.cells.now - c.used } };

    ghost invariant = { λ c. c.used ≤ length c.cells.now };
}

impl<'a, T: Copy> Cells<'a, T> {
    // None in use, whatever the cells held before.
    pub(crate) fn new(cells: &'a mut [T]) -> Self
        ensures empty { result.items ≡ [] }
        ensures room { cell_count result ≡ length cells.old }
    {
        Cells { cells, used: 0 }
    }

    pub(crate) fn capacity(&self) -> usize
        ensures { result ≡ cell_count self.now }
    {
        self.cells.len()
    }

    pub(crate) fn is_full(&self) -> bool
        ensures { IsTrue result ↔ self.now.free ≡ 0 }
    {
        self.used == self.cells.len()
    }

    pub(crate) fn as_slice(&self) -> &[T]
        ensures { result.now ≡ self.now.items }
    {
        &self.cells[..self.used]
    }

    pub(crate) fn set(&mut self, index: usize, item: T)
        requires { index < length self.old.items }
        ensures items { self.new.items ≡ slice_set self.old.items index item }
        ensures room { cell_count self.new ≡ cell_count self.old }
    {
        // Borrowed first, so that the index is known to be in bounds.
        let cells = &mut self.cells;
        cells[index] = item;
    }

    pub(crate) fn push(&mut self, item: T)
        requires { 0 < self.old.free }
        ensures items { self.new.items ≡ self.old.items ++ item ∷ [] }
        ensures room { cell_count self.new ≡ cell_count self.old }
    {
        self.insert(self.used, item);
    }

    // The items behind it move one cell up.
    pub(crate) fn insert(&mut self, index: usize, item: T)
        requires in_bounds { index ≤ length self.old.items }
        requires room { 0 < self.old.free }
        ensures items { self.new.items ≡ insert self.old.items index item }
        ensures room { cell_count self.new ≡ cell_count self.old }
    {
        self.cells.copy_within(index..self.used, index + 1);
        self.cells[index] = item;
        self.used += 1;
    }

    // The items behind it move one cell down.
    pub(crate) fn remove(&mut self, index: usize)
        requires { index < length self.old.items }
        ensures items { self.new.items ≡ remove self.old.items index }
        ensures room { cell_count self.new ≡ cell_count self.old }
    {
        self.cells.copy_within(index + 1..self.used, index);
        self.used -= 1;
    }

    // The last item takes its place.
    pub(crate) fn swap_remove(&mut self, index: usize)
        requires { index < length self.old.items }
        ensures items { (d : T) → self.new.items ≡ swap_remove self.old.items index d }
        ensures room { cell_count self.new ≡ cell_count self.old }
    {
        let last = self.used - 1;
        self.cells[index] = self.cells[last];
        self.used = last;
    }
}
