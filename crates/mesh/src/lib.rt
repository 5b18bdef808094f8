// Meshes: sizes of a level, where each level begins in lists that hold several, and the mesh rule.
#![tactic(auto)]

mod levels;
mod rule;
mod several;

pub use levels::{cell_offsets_below, grid_size, per_level, vertex_count, vertices_below};
pub use rule::{
    degree, entry, links_kept, lists, mesh_keeps, mesh_room, neighbour, vertices_finite,
};
pub use several::{
    links_room, meshes_keep, meshes_linked, meshes_long, meshes_room, neighbour_total,
};

// The vertices of a face, ascending.
#[repr(C)]
#[derive(Clone, Copy)]
pub struct Face {
    pub a: u64,
    pub b: u64,
    pub c: u64,
}

// The lists of a mesh, as they are lent: of one level, or of several one after another. In a contract `lent` of them.
#[derive(Clone, Copy)]
pub struct Mesh<'a> {
    pub vertices: &'a [f64],
    pub counts: &'a [u8],
    pub neighbours: &'a [u16],
    pub angles: &'a [f64],
}
