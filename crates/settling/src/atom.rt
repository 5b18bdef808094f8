// The settling of one slab against an atom.
ghost use Rattle.std.specs.Prelude.{◌≡◌, leb, if◌then◌else◌};
ghost use Rattle.mesh.specs.Lent.{lent};
ghost use Rattle.mesh.specs.Levels.{vertex_count};
ghost use Rattle.rows.specs.Rows.{row_with};
ghost use Rattle.settling.specs.Gradient.{zero};
ghost use Rattle.settling.specs.Settling.{atom_verdict, atom_verdict_of, atom_level};
ghost use Rattle.settling.specs.declared.AtomVerdict.{AtomVerdict};
ghost use Rattle.settling.specs.declared.Verdict.TheVariants.{Empty};

use crate::gradient::Slab;
use crate::{AtomVerdict, Verdict, gradient, verdicts};
use mesh::Mesh;
use rows::SlabResolution;

// A verdict beside which no gradient stands.
fn without_gradient(verdict: Verdict) -> AtomVerdict
    ensures { ◌≡◌ {A = AtomVerdict} result (record { verdict = verdict; gradient = zero }) }
{
    AtomVerdict {
        verdict,
        gradient: 0.0,
    }
}

// What settling finds of a slab's energies, at a level that a builder can have.
#[tactic(auto, using(mesh::proofs::Laws::count_le), unfolding(crate::specs::Settling::atom_verdict))]
fn atom_verdict(threshold: f64, beta: f64, mesh: &Mesh, energies: &[f64], level: u8) -> AtomVerdict
    ensures { result ≡ (if leb level 15
        then atom_verdict threshold beta (lent mesh.now) (vertex_count level) energies.now
        else (record { verdict = Empty; gradient = zero })) }
{
    if 15 < level {
        return without_gradient(Verdict::Empty);
    }
    if verdicts::all_repulsive(beta, energies) {
        return without_gradient(Verdict::Blocked);
    }
    let n = mesh::vertex_count(level) as u32;
    let gradient = gradient::atom_gradient(&Slab {
        mesh,
        n,
        energies,
        beta,
    });
    AtomVerdict {
        verdict: verdicts::by_gradient(threshold, energies, gradient),
        gradient,
    }
}

// The same of a row; one that holds no energies has none to settle.
pub fn atom_verdict_of(
    threshold: f64,
    beta: f64,
    mesh: &Mesh,
    energies: &[f64],
    level: u8,
    row: SlabResolution,
) -> AtomVerdict
    ensures { result ≡ (if leb level 15
        then atom_verdict_of threshold beta (lent mesh.now) (vertex_count level) (row_with row energies.now)
        else (record { verdict = Empty; gradient = zero })) }
{
    match row {
        SlabResolution::Mesh(_, _) => atom_verdict(threshold, beta, mesh, energies, level),
        SlabResolution::Scalar(_) | SlabResolution::Repulsive => without_gradient(Verdict::Empty),
    }
}

// The level after a slab.
#[tactic(auto, unfolding(crate::specs::Settling::atom_level))]
pub fn atom_level(threshold: f64, level: u64, v: AtomVerdict) -> u64
    ensures { result ≡ atom_level threshold level v }
{
    if verdicts::settles(v.verdict) & ((v.gradient < threshold) & (0 < level)) {
        return level - 1;
    }
    level
}
