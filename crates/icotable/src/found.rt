// The search over a mesh without a locator.
ghost use Rattle.std.specs.Prelude.{◌≡◌, []};
ghost use Rattle.mesh.specs.Mesh.{mesh_of};
ghost use Rattle.mesh_search.specs.MeshSearch.{search_out};

use mesh::Mesh;
use search::{Located, Vector3};

// The nearest vertex and the square of its distance, its face that fits a direction best, and the direction's weights in it. The lists are those of one level, from
// its first entry on. `Located` has the fields of the header's `icotable_found`, a face and its weights being three numbers each.
#[unsafe(no_mangle)]
pub extern "C" fn icotable_search(
    level: u64,
    vertices: &[f64],
    neighbour_counts: &[u8],
    neighbours: &[u16],
    x: f64,
    y: f64,
    z: f64,
) -> Located
    ensures { result ≡ search_out level (mesh_of vertices.now neighbour_counts.now neighbours.now []) (record { x = x; y = y; z = z }) }
{
    let mesh = Mesh {
        vertices,
        counts: neighbour_counts,
        neighbours,
        angles: &[],
    };
    mesh_search::search_mesh(level, &mesh, Vector3 { x, y, z })
}
