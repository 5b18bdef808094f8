// The reading of a table file, in stages: the slab's row is resolved, energies are gathered by a search of both
// directions, and combined.
#![tactic(auto)]

use search::Vector3;
use table::Section;

mod atom;
mod atom_combine;
mod combine;
mod energies;
mod first_stage;
mod gather;
mod many;
mod places;
mod resolve;
mod stages;

pub use atom::{atom_lookup, atom_lookup_boltzmann};
pub use many::lookup_all;
pub use resolve::outside;
pub use stages::{lookup, lookup_boltzmann};

// What is asked for: a distance, a dihedral angle and two directions.
#[derive(Clone, Copy)]
pub struct Query {
    pub r: f64,
    pub omega: f64,
    pub a: Vector3,
    pub b: Vector3,
}

// What is asked for against an atom: a distance and a direction.
#[derive(Clone, Copy)]
pub struct AtomQuery {
    pub r: f64,
    pub d: Vector3,
}

// What a reading answers: the energy, between the squared distances of both directions to the vertices that a nearest
// reading took, which are 0.0 for any other. Side by side the two would be read from memory as one, and wait for it.
#[derive(Clone, Copy)]
pub struct Energy {
    pub distance_a: f64,
    pub energy: f64,
    pub distance_b: f64,
}

// What a row's answer asks of a table: how many levels it has, and where its energies are. A whole table would be
// copied.
#[derive(Clone, Copy)]
struct RowTable {
    levels: u64,
    energies: Section,
}

// The corners of two faces, whose nine energies a reading makes one of: where the row's energies begin, the vertices
// of its level, both faces, and their weights.
#[derive(Clone, Copy)]
struct Corners {
    offset: u64,
    n: u64,
    f: mesh::Face,
    g: mesh::Face,
    p: search::Weights,
    q: search::Weights,
}

// What the first stage of a reading leaves to the second: an energy that is known already; the place of a pair's
// energy, and the distances; or the corners of two faces.
#[derive(Clone, Copy)]
enum Staged {
    Known(Energy),
    Pair {
        place: u64,
        distance_a: f64,
        distance_b: f64,
    },
    Faces(Corners),
}
