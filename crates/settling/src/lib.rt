// The settling of one slab: its gradient, what settling finds of it, and the row that it leaves.
#![tactic(auto)]

mod atom;
mod gradient;
mod verdicts;

pub use atom::{atom_level, atom_verdict_of};
pub use verdicts::{
    packed_after, packed_row, replace_by, replace_word_by, settles, tallied, verdict_of,
};

// What settling finds of a slab: that its row holds no energies; that it is repulsive; or, by its gradient, that it
// becomes a scalar, is read at the nearest vertex or stays as it is.
#[derive(Clone, Copy)]
pub enum Verdict {
    Empty,
    Blocked,
    Isotropic(f32),
    Smooth(f64),
    Rough(f64),
}

// What settling finds of a slab against an atom, with the slab's gradient; 0 beside a slab that holds no energies or
// is repulsive.
#[derive(Clone, Copy)]
pub struct AtomVerdict {
    pub verdict: Verdict,
    pub gradient: f64,
}

// What a slice adds up to: the largest gradient of slabs left as Mesh, whether some slab was settled, whether no row
// is Repulsive, the builder's number of packed energies, and how many slabs reached the gradient.
#[derive(Clone, Copy)]
pub struct Tally {
    pub gradient: f64,
    pub settled: bool,
    pub clear: bool,
    pub packed: u64,
    pub reached: u64,
}
