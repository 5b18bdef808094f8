// Sizes of a level, and how many vertices and cell offsets the levels below it have.
ghost use Rattle.std.specs.Prelude.{◌≡◌};
ghost use Rattle.mesh.specs.Levels.{vertex_count, per, grid_size, vertices_below, cell_offsets_below};

#[tactic(auto, unfolding(crate::specs::Levels::vertex_count))]
pub fn vertex_count(level: u8) -> u64
    ensures { result ≡ vertex_count level }
{
    let k = level as u64 + 1;
    10 * (k * k) + 2
}

#[tactic(auto, unfolding(crate::specs::Levels::per))]
pub fn per_level(level: u8) -> u64
    ensures { result ≡ per level }
{
    let n = vertex_count(level);
    n * n
}

// g of a level. Document 01 has it by floats; over whole numbers it is the same at each of the 256 levels, and small enough
// to be compiled in place.
pub fn grid_size(level: u8) -> u64
    ensures { result ≡ grid_size (vertex_count level) }
{
    (12691 * level as u64 + 20900) / 8192
}

// A sum of squares.
pub fn vertices_below(level: u8) -> u64
    ensures { result ≡ vertices_below level }
{
    let m = level as u64;
    5 * (m * (m + 1) * (2 * m + 1)) / 3 + 2 * m
}

// Level by level, for the levels above those of the table below.
fn cell_offsets_counted(level: u8) -> u64
    ensures { result ≡ cell_offsets_below level }
{
    let mut sum: u64 = 0;
    for m in 0..level {
        let g = grid_size(m);
        sum += 6 * (g * g) + 1;
    }
    sum
}

pub fn cell_offsets_below(level: u8) -> u64
    ensures { result ≡ cell_offsets_below level }
{
    match level {
        0 => 0,
        1 => 25,
        2 => 122,
        3 => 273,
        4 => 568,
        5 => 953,
        6 => 1554,
        7 => 2281,
        8 => 3296,
        9 => 4473,
        10 => 6010,
        11 => 7955,
        12 => 10122,
        13 => 12769,
        14 => 15674,
        15 => 19131,
        _ => cell_offsets_counted(level),
    }
}
