// The searches and the locator call for a caller in C or Rust. A direction is given by three numbers, and divided by its length here.
#![tactic(auto)]

ghost use Rattle.std.specs.Prelude.{◌≡◌, []};
ghost use Rattle.mesh.specs.Mesh.{mesh_of};
ghost use Rattle.mesh.specs.Levels.{vertex_count, grid_size};
ghost use Rattle.search.specs.Geometry.{unit};
ghost use Rattle.search.specs.Search.{nearest_in_cells, locate_in, locator_of};
ghost use Rattle.locator.specs.Locator.{LocatorOut, locator_out};
ghost use Rattle.mesh_search.specs.MeshSearch.{search_out};

use mesh::Mesh;
use search::{Located, Locator, Nearest, Vector3};

#[tactic(auto, unfolding(search::specs::Search::nearest_in))]
#[unsafe(no_mangle)]
pub extern "C" fn search_find_nearest_vertex(
    level: u8,
    cell_offsets: &[u32],
    cell_vertices: &[u16],
    vertices: &[f64],
    x: f64,
    y: f64,
    z: f64,
) -> Nearest
    ensures { result ≡ nearest_in_cells cell_offsets.now cell_vertices.now vertices.now (vertex_count level) (grid_size (vertex_count level)) (unit (record { x = x; y = y; z = z })) }
{
    let p = search::unit(Vector3 { x, y, z });
    let locator = Locator {
        cell_offsets,
        cell_vertices,
        face_offsets: &[],
        faces: &[],
    };
    search::find_nearest_vertex(level, &locator, vertices, p)
}

#[unsafe(no_mangle)]
pub extern "C" fn search_locate(
    level: u8,
    cell_offsets: &[u32],
    cell_vertices: &[u16],
    face_offsets: &[u32],
    faces: &[u16],
    vertices: &[f64],
    x: f64,
    y: f64,
    z: f64,
) -> Located
    ensures { result ≡ locate_in (locator_of cell_offsets.now cell_vertices.now face_offsets.now faces.now) vertices.now (vertex_count level) (grid_size (vertex_count level)) (unit (record { x = x; y = y; z = z })) }
{
    let p = search::unit(Vector3 { x, y, z });
    let locator = Locator {
        cell_offsets,
        cell_vertices,
        face_offsets,
        faces,
    };
    search::locate(level, &locator, vertices, p)
}

#[unsafe(no_mangle)]
pub extern "C" fn search_locator(
    level: u64,
    vertices: &[f64],
    counts: &[u8],
    neighbours: &[u16],
    angles: &[f64],
    cell_offsets: &mut [u32],
    cell_vertices: &mut [u16],
    face_offsets: &mut [u32],
    faces: &mut [u16],
) -> u64
    ensures { ◌≡◌ {A = LocatorOut}
        (record { number = result; lists = locator_of cell_offsets.new cell_vertices.new face_offsets.new faces.new })
        (locator_out level (mesh_of vertices.now counts.now neighbours.now angles.now)
        (locator_of cell_offsets.old cell_vertices.old face_offsets.old faces.old)) }
{
    let mesh = Mesh {
        vertices,
        counts,
        neighbours,
        angles,
    };
    refusals::number_of(locator::locator(
        level,
        &mesh,
        cell_offsets,
        cell_vertices,
        face_offsets,
        faces,
    ))
}

// The search without a locator.
#[unsafe(no_mangle)]
pub extern "C" fn search_mesh(
    level: u64,
    vertices: &[f64],
    counts: &[u8],
    neighbours: &[u16],
    x: f64,
    y: f64,
    z: f64,
) -> Located
    ensures { result ≡ search_out level (mesh_of vertices.now counts.now neighbours.now []) (record { x = x; y = y; z = z }) }
{
    let mesh = Mesh {
        vertices,
        counts,
        neighbours,
        angles: &[],
    };
    mesh_search::search_mesh(level, &mesh, Vector3 { x, y, z })
}
