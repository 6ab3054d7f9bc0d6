//! Lists whose length stays as it was made.

ghost use Rattle.std.specs.Prelude.{◌≡◌, ℕ, List, [], map, length, replicate, IfOk, slice_index_or, slice_set};

use no_memory::NoMemory;
use std::alloc::Global;
use std::marker::Model;

/// A list of plain values, seen as the list.
#[derive(Debug, Drop)]
pub struct Row<T> {
    entries: Vec<T>,
}

impl<T> Model for Row<T> {
    ghost Value = { List T };

    ghost view = { λ row. row.entries.items };
}

impl<T: Copy> Row<T> {
    /// `count` copies of `value`.
    pub fn with_copies(alloc: Global, count: usize, value: T) -> Result<Row<T>, NoMemory>
        ensures { IfOk result (λ row. row ≡ replicate count value) }
    {
        let mut entries = Vec::new(alloc);
        for _ in 0..count {
            entries.push(value)?;
        }
        Ok(Row { entries })
    }

    /// How many values it has.
    pub fn len(&self) -> usize
        ensures { result ≡ length self.now }
    {
        self.entries.len()
    }

    /// The value at a place, or `default` past the end.
    pub fn get(&self, place: usize, default: T) -> T
        ensures { result ≡ slice_index_or self.now place default }
    {
        match self.entries.get(place) {
            Some(value) => *value,
            None => default,
        }
    }

    /// Writes the value at a place; nothing past the end.
    pub fn set(&mut self, place: usize, value: T)
        ensures { self.new ≡ slice_set self.old place value }
    {
        if place < self.entries.len() {
            self.entries[place] = value;
        }
    }

    /// Writes the value at every place.
    pub fn fill(&mut self, value: T)
        ensures { self.new ≡ map (λ _. value) self.old }
    {
        for entry in self.entries.iter_mut() {
            *entry = value;
        }
    }
}

/// A list of lists of plain values, seen as such.
#[derive(Debug, Drop)]
pub struct Grid<T> {
    rows: Vec<Row<T>>,
}

impl<T> Model for Grid<T> {
    ghost Value = { List (List T) };

    ghost view = { λ grid. grid.rows.items };
}

impl<T: Copy + Drop> Grid<T> {
    /// `count` rows of `width` copies of `value`.
    pub fn with_copies(
        alloc: Global,
        count: usize,
        width: usize,
        value: T,
    ) -> Result<Grid<T>, NoMemory>
        ensures { IfOk result (λ grid. grid ≡ replicate count (replicate width value)) }
    {
        let mut rows = Vec::new(alloc);
        for _ in 0..count {
            let row = Row::with_copies(alloc, width, value)?;
            rows.push(row)?;
        }
        Ok(Grid { rows })
    }

    /// The value at a place of a row, or `default` past its end.
    pub fn get(&self, row: usize, place: usize, default: T) -> T
        ensures { result ≡ slice_index_or (slice_index_or self.now row []) place default }
    {
        match self.rows.get(row) {
            Some(row) => row.get(place, default),
            None => default,
        }
    }

    /// Writes the value at a place of a row; nothing past its end.
    pub fn set(&mut self, row: usize, place: usize, value: T)
        ensures { self.new
            ≡ slice_set self.old row (slice_set (slice_index_or self.old row []) place value) }
    {
        if row < self.rows.len() {
            let row = &mut self.rows[row];
            row.set(place, value);
        }
    }

    /// Writes the value at every place of every row.
    pub fn fill(&mut self, value: T)
        ensures { self.new ≡ map (map (λ _. value)) self.old }
    {
        for row in self.rows.iter_mut() {
            row.fill(value);
        }
    }
}
