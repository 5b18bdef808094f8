// The search for a direction's nearest vertex and face.
#![tactic(auto)]

use mesh::Face;

mod cells;
mod faces;
mod geometry;
mod triangle;

pub use cells::{find_nearest_vertex, not_nearest};
pub use faces::{fitted, locate, no_fit, not_located};
pub use geometry::{
    cell_index, cube_face_project, cube_project, difference, dot, in_cells, length_valid, norm,
    unit,
};
pub use triangle::projected_barycentric;

// A point, or a direction. (The Rust takes nalgebra's vector of this name.)
#[repr(C)]
#[derive(Clone, Copy)]
pub struct Vector3 {
    pub x: f64,
    pub y: f64,
    pub z: f64,
}

// A point as a face of the cube sees it: two coordinates, and how far in front of the cube's middle it is.
#[derive(Clone, Copy)]
pub struct Seen {
    pub u: f64,
    pub w: f64,
    pub d: f64,
}

// The face that a point is in front of, and the point on it.
#[derive(Clone, Copy)]
pub struct Projected {
    pub face: u64,
    pub u: f64,
    pub w: f64,
}

// Barycentric weights of a face's vertices.
#[repr(C)]
#[derive(Clone, Copy)]
pub struct Weights {
    pub a: f64,
    pub b: f64,
    pub c: f64,
}

// The face that fits a direction best so far, and the least of its weights.
#[derive(Clone, Copy)]
pub struct Fit {
    pub face: Face,
    pub weights: Weights,
    pub least: f64,
}

// The lists of a level's locator, as they are lent: the vertices of each cell, and the faces of each vertex, with where each begins.
#[derive(Clone, Copy)]
pub struct Locator<'a> {
    pub cell_offsets: &'a [u32],
    pub cell_vertices: &'a [u16],
    pub face_offsets: &'a [u32],
    pub faces: &'a [u16],
}

// The nearest vertex of a cell and the square of its distance: number 0; or 19 or 20, and then nothing else counts.
#[repr(C)]
#[derive(Clone, Copy)]
pub struct Nearest {
    pub number: u64,
    pub vertex: u64,
    pub distance: f64,
}

// The nearest vertex and the square of its distance, its face that fits a direction best, and the direction's weights in
// it: number 0; or 19 or 20, and then all else is 0.
#[repr(C)]
#[derive(Clone, Copy)]
pub struct Located {
    pub number: u64,
    pub vertex: u64,
    pub distance: f64,
    pub face: Face,
    pub weights: Weights,
}
