// The table file, and read.
#![tactic(auto)]

use grid::{AtomGrid, Grid};

mod bytes;
mod loose;
mod questions;
mod reader;
mod walk;

pub use bytes::{float_at, u32_at, u32_from_le_bytes};
pub use loose::read_loose;
pub use questions::{energies_of, entry_at};
pub use reader::{atom_read, read, read_over, view};
pub use walk::tail_size;

// Where each section after the first begins, with its count, and where the last one ends.
#[derive(Clone, Copy)]
pub struct Layout {
    pub bins: u64,
    pub levels: u64,
    pub rows: u64,
    pub energies: u64,
    pub end: u64,
}

// What a file holds: its grid, the counts of levels, rows, energies and terms, and where each section starts, at the
// byte after its count. A file without terms has no sixth section: its start is the file's length.
#[derive(Clone, Copy)]
pub struct Table {
    pub grid: Grid,
    pub levels: u64,
    pub rows: u64,
    pub energies: u64,
    pub terms: u64,
    pub grid_start: u64,
    pub bins_start: u64,
    pub levels_start: u64,
    pub rows_start: u64,
    pub energies_start: u64,
    pub tail_start: u64,
}

// What a file of a table against an atom holds; its second section has the distance count alone.
#[derive(Clone, Copy)]
pub struct AtomTable {
    pub grid: AtomGrid,
    pub levels: u64,
    pub rows: u64,
    pub energies: u64,
    pub grid_start: u64,
    pub bins_start: u64,
    pub levels_start: u64,
    pub rows_start: u64,
    pub energies_start: u64,
}

// How much of a file a reader opens.
#[derive(Clone, Copy)]
pub struct Bound {
    pub levels: u64,
    pub rows: u64,
}

// A row as it stands in a file: its kind is 0 for a scalar, 1 for a repulsive row, and 2 or 3 for the energies of a
// mesh.
#[derive(Clone, Copy)]
pub struct Entry {
    pub kind: u8,
    pub level: u8,
    pub offset: u32,
    pub scalar: u32,
}

// Items of one size that follow one another in a file: the byte where they start, and how many they are.
#[derive(Clone, Copy)]
pub struct Section {
    pub start: u64,
    pub count: u64,
}
