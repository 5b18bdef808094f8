// The gradient of a slab. No list of weights is kept: the weights of a row, or of a column, fit into an array, so
// that each entry is weighed twice. The arrays are made once for a slab and lent from line to line, since making one
// clears it; what they hold before does not count. A line begins at a place of the energies, and its entries are a
// step apart.
ghost use Rattle.std.specs.Prelude.{◌≡◌, ◌+◌, ◌*◌, ◌/◌, ◌≤◌, false, map, length, get_or, take, is_nan, slice_index_or};
ghost use Rattle.std.specs.Float.{nan, binary64};
ghost use Rattle.std.specs.Float.Ieee.{mul, neg};
ghost use Rattle.mesh.specs.Lent.{lent};
ghost use Rattle.lists.specs.Lists.{put};
ghost use Rattle.float.specs.Exp.{exponential};
ghost use Rattle.settling.specs.Gradient.{weight, steeper, along_neighbours, atom_gradient};
ghost use Rattle.settling.specs.Internal.{line_exponents, line_weights, line_gradient, four_columns, first_columns, lines_gradient, by_lines};

use mesh::Mesh;

// What a gradient is worked out of: a mesh of n vertices, the energies of a slab, and beta.
#[derive(Clone, Copy)]
pub(crate) struct Slab<'a> {
    pub mesh: &'a Mesh<'a>,
    pub n: u32,
    pub energies: &'a [f64],
    pub beta: f64,
}

// The Boltzmann weight of an energy.
#[tactic(auto, unfolding(crate::specs::Gradient::weight))]
pub(crate) fn weight(beta: f64, e: f64) -> f64
    ensures { result ≡ weight beta e }
{
    float::exp(-beta * e)
}

// The larger of g and the slope between two weights; a pair at a smaller angle is passed over. g is a number, so that
// one comparison finds the larger one.
fn steeper(x: f64, y: f64, angle: f64, g: f64) -> f64
    requires { is_nan g ≡ false }
    ensures { result ≡ steeper x y angle g }
{
    if 1e-12 < angle {
        let q = float::abs(x - y) / angle;
        if q > g {
            return q;
        }
    }
    g
}

// The exponent of the weight at place i of a line.
fn exponent_at(slab: &Slab, from: usize, step: usize, i: usize) -> f64
    requires { (from ≤ 6563844) × (step ≤ 2562) × (i ≤ 2562) }
    ensures { result ≡ mul binary64 (neg slab.now.beta)
        (slice_index_or slab.now.energies.now (from + step * i) nan) }
{
    -slab.beta * mesh::entry(slab.energies, from + step * i)
}

// The exponents of a line.
#[tactic(auto, using(lists::proofs::Written::put_nil), unfolding(crate::specs::Internal::line_of))]
fn exponents(slab: &Slab, from: usize, step: usize, weights: &mut [f64])
    requires { (slab.now.n ≤ length weights.old) × (slab.now.n ≤ 2562) × (step ≤ 2562) × (from ≤ 6563844) }
    ensures { weights.new ≡ put weights.old 0
        (line_exponents slab.now.beta slab.now.energies.now from step slab.now.n) }
{
    for i in 0..slab.n as usize {
        weights[i] = exponent_at(slab, from, step, i);
    }
}

// The exponents of four columns that begin side by side, so that what is read for one serves the others.
#[tactic(auto, using(lists::proofs::Written::put_nil), unfolding(crate::specs::Internal::line_of))]
fn exponents_four(
    slab: &Slab,
    from: usize,
    first: &mut [f64],
    second: &mut [f64],
    third: &mut [f64],
    fourth: &mut [f64],
)
    requires { (slab.now.n ≤ length first.old) × (slab.now.n ≤ length second.old)
        × (slab.now.n ≤ length third.old) × (slab.now.n ≤ length fourth.old)
        × (slab.now.n ≤ 2562) × (from ≤ 2562) }
    ensures { (first.new ≡ put first.old 0
        (line_exponents slab.now.beta slab.now.energies.now from slab.now.n slab.now.n))
        × (second.new ≡ put second.old 0
        (line_exponents slab.now.beta slab.now.energies.now (from + 1) slab.now.n slab.now.n))
        × (third.new ≡ put third.old 0
        (line_exponents slab.now.beta slab.now.energies.now (from + 2) slab.now.n slab.now.n))
        × (fourth.new ≡ put fourth.old 0
        (line_exponents slab.now.beta slab.now.energies.now (from + 3) slab.now.n slab.now.n)) }
{
    let n = slab.n as usize;
    for i in 0..n {
        first[i] = exponent_at(slab, from, n, i);
        second[i] = exponent_at(slab, from + 1, n, i);
        third[i] = exponent_at(slab, from + 2, n, i);
        fourth[i] = exponent_at(slab, from + 3, n, i);
    }
}

// A vertex of a line against its neighbours.
#[tactic(auto, using(lists::proofs::Loops::each_turn, crate::proofs::Numbers::steeper_number), unfolding(lists::specs::Lists::for_each, crate::specs::Gradient::along_neighbours))]
fn along_neighbours(mesh: &Mesh, weights: &[f64], v: u32, g: f64) -> f64
    requires { is_nan g ≡ false }
    ensures { result ≡ along_neighbours (lent mesh.now) v
        (λ k. get_or weights.now k nan) (slice_index_or weights.now v nan) g }
{
    let x = mesh::entry(weights, v as usize);
    let mut h = g;
    for k in 0..mesh::degree(mesh.counts, v) {
        let y = mesh::entry(weights, mesh::neighbour(mesh.neighbours, v, k) as usize);
        h = steeper(
            x,
            y,
            mesh::entry(mesh.angles, 6 * v as usize + k as usize),
            h,
        );
    }
    h
}

// All vertices of a line.
#[tactic(auto, using(lists::proofs::Loops::each_turn, crate::proofs::Numbers::neighbours_number), unfolding(lists::specs::Lists::for_each, crate::specs::Gradient::line_gradient))]
fn line_gradient(mesh: &Mesh, weights: &[f64], n: u32, g: f64) -> f64
    requires { is_nan g ≡ false }
    ensures { result ≡ line_gradient (lent mesh.now) n weights.now g }
{
    let mut h = g;
    for v in 0..n {
        h = along_neighbours(mesh, weights, v, h);
    }
    h
}

// The weights of a line by its exponents, and the gradient along it.
#[tactic(auto, using(crate::proofs::Lines::weighed_part))]
fn weighed(mesh: &Mesh, weights: &mut [f64], n: u32, g: f64) -> f64
    requires { (n ≤ length weights.old) × (is_nan g ≡ false) }
    ensures { result ≡ line_gradient (lent mesh.now) n
        (map exponential (take n weights.old)) g }
{
    let m = n as usize;
    float::exp_list(&mut weights[0..m]);
    line_gradient(mesh, &weights[0..m], n, g)
}

// The gradient along a line.
fn line_steeper(slab: &Slab, from: usize, step: usize, g: f64, weights: &mut [f64]) -> f64
    requires { (slab.now.n ≤ 2562) × (step ≤ 2562) × (from ≤ 6563844) × (is_nan g ≡ false)
        × (slab.now.n ≤ length weights.old) }
    ensures { result ≡ line_gradient (lent slab.now.mesh.now) slab.now.n
        (line_weights slab.now.beta slab.now.energies.now from step slab.now.n) g }
{
    exponents(slab, from, step, weights);
    weighed(slab.mesh, weights, slab.n, g)
}

// The gradient along four columns side by side.
#[tactic(auto, using(crate::proofs::Numbers::line_number))]
fn four_columns(
    slab: &Slab,
    from: usize,
    g: f64,
    first: &mut [f64],
    second: &mut [f64],
    third: &mut [f64],
    fourth: &mut [f64],
) -> f64
    requires { (slab.now.n ≤ 2562) × (from ≤ 2562) × (is_nan g ≡ false)
        × (slab.now.n ≤ length first.old) × (slab.now.n ≤ length second.old)
        × (slab.now.n ≤ length third.old) × (slab.now.n ≤ length fourth.old) }
    ensures { result ≡ four_columns (lent slab.now.mesh.now) slab.now.n slab.now.beta slab.now.energies.now from g }
{
    exponents_four(slab, from, first, second, third, fourth);
    let h = weighed(slab.mesh, first, slab.n, g);
    let h = weighed(slab.mesh, second, slab.n, h);
    let h = weighed(slab.mesh, third, slab.n, h);
    weighed(slab.mesh, fourth, slab.n, h)
}

// The columns of a slab, four at a time, as far as that goes.
#[tactic(auto, using(crate::proofs::Numbers::columns_number, crate::proofs::Numbers::columns_four), unfolding(crate::specs::Internal::first_columns, lists::specs::Lists::for_each))]
fn fours(slab: &Slab, first: &mut [f64]) -> f64
    requires { (slab.now.n ≤ 2562) × (slab.now.n ≤ length first.old) }
    ensures { result ≡ first_columns (lent slab.now.mesh.now) slab.now.n slab.now.beta slab.now.energies.now
        (slab.now.n / 4 * 4) }
{
    let mut second = [0.0; 2562];
    let mut third = [0.0; 2562];
    let mut fourth = [0.0; 2562];
    let mut h = 0.0;
    for i in 0..slab.n / 4 {
        let from = i as usize * 4;
        h = four_columns(slab, from, h, first, &mut second, &mut third, &mut fourth);
    }
    h
}

// All columns of a slab.
#[tactic(auto, using(crate::proofs::Numbers::columns_number, crate::proofs::Numbers::columns_one), unfolding(crate::specs::Internal::column_gradient))]
fn columns(slab: &Slab, weights: &mut [f64]) -> f64
    requires { (slab.now.n ≤ 2562) × (slab.now.n ≤ length weights.old) }
    ensures { result ≡ first_columns (lent slab.now.mesh.now) slab.now.n slab.now.beta slab.now.energies.now
        slab.now.n }
{
    let n = slab.n as usize;
    let mut h = fours(slab, weights);
    for t in n / 4 * 4..n {
        h = line_steeper(slab, t, n, h, weights);
    }
    h
}

// All rows of a slab.
#[tactic(auto, using(lists::proofs::Loops::each_turn, crate::proofs::Numbers::line_number), unfolding(lists::specs::Lists::for_each, crate::specs::Internal::lines_gradient))]
fn along_rows(slab: &Slab, g: f64, weights: &mut [f64]) -> f64
    requires { (slab.now.n ≤ 2562) × (is_nan g ≡ false) × (slab.now.n ≤ length weights.old) }
    ensures { result ≡ lines_gradient (lent slab.now.mesh.now) slab.now.n slab.now.beta slab.now.energies.now
        slab.now.n 1 g }
{
    let n = slab.n as usize;
    let mut h = g;
    for t in 0..n {
        h = line_steeper(slab, n * t, 1, h, weights);
    }
    h
}

// The gradient of a slab: along its columns, then along its rows.
#[tactic(auto, using(crate::proofs::Numbers::columns_number, crate::proofs::Numbers::columns_are), unfolding(crate::specs::Internal::by_lines))]
pub(crate) fn gradient(slab: &Slab) -> f64
    requires { slab.now.n ≤ 2562 }
    ensures { result ≡ by_lines (lent slab.now.mesh.now) slab.now.n slab.now.beta slab.now.energies.now }
{
    let mut weights = [0.0; 2562];
    let h = columns(slab, &mut weights);
    along_rows(slab, h, &mut weights)
}

// The gradient of a slab against an atom, whose energies are one line.
#[tactic(auto, using(crate::proofs::Numbers::zero_number, crate::proofs::Slopes::by_line), unfolding(crate::specs::Gradient::atom_gradient))]
pub(crate) fn atom_gradient(slab: &Slab) -> f64
    requires { slab.now.n ≤ 2562 }
    ensures { result ≡ atom_gradient (lent slab.now.mesh.now) slab.now.n slab.now.beta slab.now.energies.now }
{
    let mut weights = [0.0; 2562];
    line_steeper(slab, 0, 1, 0.0, &mut weights)
}
