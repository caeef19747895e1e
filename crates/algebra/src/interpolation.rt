// The polynomial of degree below k through k points, by its value at any further code.
ghost use Rattle.std.specs.Prelude.{◌≡◌, ℕ, ◌<◌, ◌≤◌, map, length, take};
ghost use Rattle.base.specs.Bytes.{over};
ghost use Rattle.algebra.specs.Polynomials.{at, Points, OnePolynomial, ValueAt, Interpolates};
ghost use Rattle.algebra.specs.Lagrange.{factor, weight, lagrange};

use crate::field::Field;

fn weight_factor<F: Field>(p: u32, q: u32, x: u32) -> u32
    ensures { result ≡ factor F.ops p q x }
{
    if p == q {
        1
    } else {
        F::mul(F::sub(x, q), F::inv(F::sub(p, q)))
    }
}

// What the value at the point p weighs in the value at x, among these points.
pub fn weight<F: Field>(points: &[u32], p: u32, x: u32) -> u32
    ensures { result ≡ weight F.ops (length points.now) (at points.now) p x }
{
    let mut product = 1;
    for q in points {
        product = F::mul(product, weight_factor::<F>(p, *q, x));
    }
    product
}

// The weight of each point in the value at x, into the front of `weights`, as many as there are points or room. From
// differing codes they give the value at x of every polynomial of degree below the number of points.
pub fn weights<F: Field>(points: &[u32], x: u32, weights: &mut [u32])
    ensures fills { weights.new ≡ over (map (λ p. weight F.ops (length points.now) (at points.now) p x) (take (length weights.old) points.now)) weights.old }
    ensures value { length points.now ≤ length weights.old → Interpolates F.ops (length points.now) (at points.now) x (at weights.new) }
{
    let n = points.len().min(weights.len());
    // by index: of what is written through a zip of iter_mut a proof knows nothing
    for (j, p) in points[..n].iter().enumerate() {
        weights[j] = weight::<F>(points, *p, x);
    }
}

fn value_at(values: &[u32], j: usize) -> u32
    ensures { result ≡ at values.now j }
{
    values.get(j).copied().unwrap_or(0)
}

// The value at x of the polynomial that has these values at these points; a value that is not given counts as 0.
pub fn interpolate<F: Field>(points: &[u32], values: &[u32], x: u32) -> u32
    ensures formula { result ≡ lagrange F.ops (length points.now) (at points.now) (at values.now) x }
    ensures value { Points F.ops (length points.now) (at points.now) → ((i : ℕ) → i < length points.now → at values.now i < F.ops.size) → x < F.ops.size → ValueAt F.ops (length points.now) (at points.now) (at values.now) x result }
{
    let mut sum = 0;
    for (j, p) in points.iter().enumerate() {
        sum = F::add(sum, F::mul(value_at(values, j), weight::<F>(points, *p, x)));
    }
    sum
}

// That k values at k differing codes are those of one polynomial of degree below k, and of one only.
pub fn one_polynomial<F: Field>()
    ensures { OnePolynomial F.ops }
{}
