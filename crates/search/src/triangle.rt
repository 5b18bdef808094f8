// The projection of a direction to a triangle.
ghost use Rattle.std.specs.Prelude.{◌≡◌, ◌&&◌};
ghost use Rattle.std.specs.Float.Ieee.{neg, le};
ghost use Rattle.ieee.specs.Fused.{fused};
ghost use Rattle.search.specs.Geometry.{zero, in_face, projected_barycentric};
ghost use Rattle.search.specs.Internal.{sides_of, past};

use crate::geometry::{difference, dot};
use crate::{Vector3, Weights};

fn weighed(a: f64, b: f64, c: f64) -> Weights
    ensures { result ≡ record { a = a; b = b; c = c } }
{
    Weights { a, b, c }
}

// Past every edge and corner.
#[tactic(auto, unfolding(crate::specs::Geometry::in_face))]
fn in_face(va: f64, vb: f64, vc: f64) -> Weights
    ensures { result ≡ in_face va vb vc }
{
    let denom = 1.0 / (va + vb + vc);
    let v = vb * denom;
    let w = vc * denom;
    Weights {
        a: 1.0 - v - w,
        b: v,
        c: w,
    }
}

// The dot products that tell on which side of a triangle's edges and corners a point is.
#[derive(Clone, Copy)]
pub(crate) struct Sides {
    pub(crate) d1: f64,
    pub(crate) d2: f64,
    pub(crate) d3: f64,
    pub(crate) d4: f64,
    pub(crate) d5: f64,
    pub(crate) d6: f64,
}

#[tactic(auto, unfolding(crate::specs::Internal::sides_of))]
pub(crate) fn sides_of(p: Vector3, a: Vector3, b: Vector3, c: Vector3) -> Sides
    ensures { result ≡ sides_of p a b c }
{
    let ab = difference(b, a);
    let ac = difference(c, a);
    let ap = difference(p, a);
    let bp = difference(p, b);
    let cp = difference(p, c);
    Sides {
        d1: dot(ab, ap),
        d2: dot(ac, ap),
        d3: dot(ab, bp),
        d4: dot(ac, bp),
        d5: dot(ab, cp),
        d6: dot(ac, cp),
    }
}

// Whether p is told to be past an edge or a corner by plain products alone; its least weight is then not above 0.
#[tactic(auto, unfolding(crate::specs::Internal::past))]
pub(crate) fn is_past(s: Sides) -> bool
    ensures { result ≡ past s }
{
    let Sides {
        d1,
        d2,
        d3,
        d4,
        d5,
        d6,
    } = s;
    let at_a = (d1 <= 0.0) & (d2 <= 0.0);
    let at_b = (d3 >= 0.0) & (d4 <= d3);
    let on_ab = (d1 * d4 < d3 * d2) & ((d1 >= 0.0) & (d3 <= 0.0));
    let at_c = (d6 >= 0.0) & (d5 <= d6);
    let on_ac = (d5 * d2 < d1 * d6) & ((d2 >= 0.0) & (d6 <= 0.0));
    let on_bc = (d3 * d6 < d5 * d4) & ((d4 - d3 >= 0.0) & (d5 - d6 >= 0.0));
    (at_a | at_b | on_ab) | (at_c | on_ac | on_bc)
}

// Where it is asked: whether x * y less m, rounded once, is not above 0. The plain product tells, since rounding keeps
// order; the fused one is made only where the two are too near.
fn not_above(asked: bool, x: f64, y: f64, m: f64) -> bool
    ensures { result ≡ (le (fused x y (neg m)) zero && asked) }
{
    if !asked {
        return false;
    }
    let p = x * y;
    if p < m {
        return true;
    }
    if m + 1e-300 < p {
        return false;
    }
    ieee::mul_add(x, y, -m) <= 0.0
}

// The weights of p in the triangle a, b, c, region by region; the three products that tell the sides are fused.
pub fn projected_barycentric(p: Vector3, a: Vector3, b: Vector3, c: Vector3) -> Weights
    ensures { result ≡ projected_barycentric p a b c }
{
    let s = sides_of(p, a, b, c);
    let Sides {
        d1,
        d2,
        d3,
        d4,
        d5,
        d6,
    } = s;
    if (d1 <= 0.0) & (d2 <= 0.0) {
        return weighed(1.0, 0.0, 0.0);
    }
    if (d3 >= 0.0) & (d4 <= d3) {
        return weighed(0.0, 1.0, 0.0);
    }
    if not_above((d1 >= 0.0) & (d3 <= 0.0), d1, d4, d3 * d2) {
        let v = d1 / (d1 - d3);
        return weighed(1.0 - v, v, 0.0);
    }
    if (d6 >= 0.0) & (d5 <= d6) {
        return weighed(0.0, 0.0, 1.0);
    }
    if not_above((d2 >= 0.0) & (d6 <= 0.0), d5, d2, d1 * d6) {
        let w = d2 / (d2 - d6);
        return weighed(1.0 - w, 0.0, w);
    }
    if not_above((d4 - d3 >= 0.0) & (d5 - d6 >= 0.0), d3, d6, d5 * d4) {
        let w = (d4 - d3) / ((d4 - d3) + (d5 - d6));
        return weighed(0.0, 1.0 - w, w);
    }
    let va = ieee::mul_add(d3, d6, -(d5 * d4));
    let vb = ieee::mul_add(d5, d2, -(d1 * d6));
    let vc = ieee::mul_add(d1, d4, -(d3 * d2));
    in_face(va, vb, vc)
}
