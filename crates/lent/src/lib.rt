// Rows as a slice of records, and set and settle with the builder lent to be altered; and the law that these forms
// answer as the calls by value over words do.
#![tactic(auto)]

mod calls;
mod records;

pub use calls::{set_lent, settle_lent};
pub use records::{gather, record_of, replace_row, resolution_of, row_at, spread};

// A slab's row as a record of its three numbers.
#[repr(C)]
#[derive(Clone, Copy)]
pub struct RowRecord {
    pub kind: u8,
    pub level: u8,
    pub value: u32,
}

// What settle answers where the builder is lent: the largest gradient, and the neighbour comparisons made.
#[derive(Clone, Copy)]
pub struct LentSettled {
    pub gradient: f64,
    pub comparisons: u64,
}
