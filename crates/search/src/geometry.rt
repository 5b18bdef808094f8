// Directions, and their projection to the cube and its cells.
ghost use Rattle.std.specs.Prelude.{◌≡◌, cond, ◌&&◌};
ghost use Rattle.std.specs.Float.Ieee.{lt, le};
ghost use Rattle.std.specs.Float.Ieee.Scale.{finite};
ghost use Rattle.mesh.specs.Levels.{vertex_count, grid_size};
ghost use Rattle.search.specs.Geometry.{zero, dot, norm, unit, difference, cube_face_project, cube_project, in_cells, clamp, cell_coordinate, cell_index};

use crate::{Projected, Seen, Vector3};

#[tactic(auto, unfolding(crate::specs::Geometry::dot))]
pub fn dot(a: Vector3, b: Vector3) -> f64
    ensures { result ≡ dot a b }
{
    a.x * b.x + a.y * b.y + a.z * b.z
}

#[tactic(auto, unfolding(crate::specs::Geometry::norm))]
pub fn norm(a: Vector3) -> f64
    ensures { result ≡ norm a }
{
    // most directions come as units
    ieee::root_next_to_one(dot(a, a))
}

// A length that is finite and above 0. It is so where its square is, so no root is taken; d - d is 0 for a finite d alone.
pub fn length_valid(a: Vector3) -> bool
    ensures { result ≡ (finite (norm a) && lt zero (norm a)) }
{
    let d = dot(a, a);
    (d - d == 0.0) & (0.0 < d)
}

// A direction divided by its length.
#[tactic(auto, unfolding(crate::specs::Geometry::unit))]
pub fn unit(a: Vector3) -> Vector3
    ensures { result ≡ unit a }
{
    let l = norm(a);
    Vector3 {
        x: a.x / l,
        y: a.y / l,
        z: a.z / l,
    }
}

#[tactic(auto, unfolding(crate::specs::Geometry::difference))]
pub fn difference(a: Vector3, b: Vector3) -> Vector3
    ensures { result ≡ difference a b }
{
    Vector3 {
        x: a.x - b.x,
        y: a.y - b.y,
        z: a.z - b.z,
    }
}

// A point as the face of a number sees it; 5 and every number beyond it are the last face.
#[tactic(auto, unfolding(crate::specs::Geometry::cube_face_project))]
pub fn cube_face_project(face: u64, v: Vector3) -> Seen
    ensures { result ≡ cube_face_project face v }
{
    let Vector3 { x, y, z } = v;
    match face {
        0 => Seen { u: y, w: z, d: x },
        1 => Seen { u: -y, w: z, d: -x },
        2 => Seen { u: x, w: z, d: y },
        3 => Seen { u: -x, w: z, d: -y },
        4 => Seen { u: x, w: y, d: z },
        _ => Seen { u: -x, w: y, d: -z },
    }
}

fn either(first: bool, a: f64, b: f64) -> f64
    ensures { result ≡ cond first a b }
{
    if first { a } else { b }
}

// Of three numbers the one that goes with the largest of ax, ay and az.
fn largest(ax: f64, ay: f64, az: f64, x: f64, y: f64, z: f64) -> f64
    ensures { result ≡ cond (le ay ax && le az ax) x (cond (le az ay) y z) }
{
    let other = either(ay >= az, y, z);
    either(ax >= ay, either(ax >= az, x, other), other)
}

// The first number of the pair of faces that the largest of ax, ay and az is for.
fn pair_of(ax: f64, ay: f64, az: f64) -> u64
    ensures { result ≡ cond (le ay ax && le az ax) 0 (cond (le az ay) 2 4) }
{
    if (ax >= ay) & (ax >= az) {
        return 0;
    }
    if ay >= az { 2 } else { 4 }
}

// The face by the largest coordinate, and the point on it. With no jump, since the face cannot be foreseen: each choice
// is by one comparison. What is seen from behind has the other sign, and so has what it is divided by.
pub fn cube_project(v: Vector3) -> Projected
    ensures { result ≡ cube_project v }
{
    let Vector3 { x, y, z } = v;
    let ax = float::abs(x);
    let ay = float::abs(y);
    let az = float::abs(z);
    let a = largest(ax, ay, az, x, y, z);
    let u = largest(ax, ay, az, y, x, x);
    let w = largest(ax, ay, az, z, z, y);
    let front = a > 0.0;
    let d = either(front, a, -a);
    Projected {
        face: pair_of(ax, ay, az) + !front as u64,
        u: u / a,
        w: w / d,
    }
}

// A coordinate of a face, counted in cells.
pub fn in_cells(g: u64, u: f64) -> f64
    ensures { result ≡ in_cells g u }
{
    // rounded twice, this is the fused product: half of u is exact, or too small to matter
    (u * 0.5 + 0.5) * float::of_u64(g)
}

#[tactic(auto, unfolding(crate::specs::Geometry::clamp))]
fn clamp(low: f64, high: f64, x: f64) -> f64
    ensures { result ≡ clamp low high x }
{
    if x < low {
        return low;
    }
    if high < x { high } else { x }
}

// The cell that a coordinate is in, held to the grid.
fn cell_coordinate(g: u64, u: f64) -> u64
    ensures { result ≡ cell_coordinate g u }
{
    float::to_u64(clamp(0.0, float::of_u64(g) - 1.0, in_cells(g, u)))
}

// The cell that a direction is in, at a level's grid.
pub fn cell_index(level: u8, v: Vector3) -> u64
    ensures { result ≡ cell_index (grid_size (vertex_count level)) v }
{
    let g = mesh::grid_size(level);
    let p = cube_project(v);
    let i = cell_coordinate(g, p.u);
    let j = cell_coordinate(g, p.w);
    p.face * (g * g) + i * g + j
}
