// Cofactors of the resultant by the rows of Sylvester's matrix. Column by column, from the highest power on, the rows of f and g that begin
// there come in, all rows but one are cleared in that column, and that one leaves. A row is its words at the columns that are left and the
// two multipliers that make it of f and g; what is done to a row is done to its multipliers. Nothing is asked of the modulus.
//
//   row r    ROW words from ROW r on: b words, at FIRST the multiplier of f, at SECOND that of g (band_clearing)
//
// The rows of a column are cleared in `band_clearing`; they come in and leave in `band_rows`.
//
//   column, columns                          a round of the loop over the columns, and the loop
//   last_row                                 all columns: one row of one word is left
//   scale_into, cofactors                    the last row times the factor: the cofactors
#![tactic(auto)]

ghost use Rattle.std.specs.Prelude.{◌+◌, ◌-◌, ◌<◌, ◌≤◌, length};
ghost use Rattle.windows.specs.Window.{Scratch};
ghost use Rattle.band_clearing.specs.Bands.{band_room, Moment, StepAsked, LastAsked, LastRow, Scaled};
ghost use Rattle.band_clearing.specs.Bands.{CofactorsAsked, ResultantCofactors};

use band_clearing::{FIRST, SECOND, Sizes};
use band_rows::Stage;

// Column j, with t before it.
fn column(w: &mut [u32], n: u32, f: &[u32], g: &[u32], s: Sizes, j: usize, t: Stage) -> Stage
    requires j_bound { (j < s.d + s.e) × (band_room ≤ length w.old) }
    requires step_asked { StepAsked n f.now g.now s.b s.d s.e }
    requires moment { Moment n f.now g.now s.b s.d s.e j t.rows t.factor w.old }
    ensures { Moment n f.now g.now s.b s.d s.e (j + 1) result.rows result.factor w.new }
{
    let u = band_rows::come_in(w, n, f, g, s, j, t);
    let m = u.rows;
    let i = band_clearing::pivot(w, n, m);
    let p = band_clearing::clear_column(w, n, i, m, s);
    let y = band_rows::leave(w, n, p, m - 1, s.b, u.factor);
    Stage {
        rows: m - 1,
        factor: y,
    }
}

// All columns but the last.
fn columns(w: &mut [u32], n: u32, f: &[u32], g: &[u32], s: Sizes) -> Stage
    requires band_room_in_bounds { band_room ≤ length w.old }
    requires step_asked { StepAsked n f.now g.now s.b s.d s.e }
    ensures { Moment n f.now g.now s.b s.d s.e (s.d + s.e - 1) result.rows result.factor
        w.new }
{
    windows::wipe(w);
    let mut t = Stage { rows: 0, factor: 1 };
    for j in 0..s.d + s.e - 1 {
        t = column(w, n, f, g, s, j, t);
    }
    t
}

// u[k] = x * w[at + k], for each word of u.
fn scale_into(u: &mut [u32], w: &[u32], n: u32, x: u32, at: usize)
    requires { (1 ≤ n) × (at + length u.old ≤ length w.now) }
    ensures { Scaled n x at w.now u.old u.new }
{
    for k in 0..u.len() {
        u[k] = arithmetic::mul_mod(n, x, w[at + k]);
    }
}

// The larger of d and e, and 1.
fn breadth(d: usize, e: usize) -> usize
    requires { (d ≤ 48) × (e ≤ 48) }
    ensures { (d < result) × ((e < result) × (result ≤ 49)) }
{
    if d < e {
        return e + 1;
    }
    d + 1
}

// The factor of the last row, which stands first in w.
fn last_row(w: &mut [u32], n: u32, f: &[u32], g: &[u32]) -> u32
    requires { LastAsked n f.now g.now w.old }
    ensures { LastRow n f.now g.now result w.new }
{
    let d = f.len() - 1;
    let e = g.len() - 1;
    let s = Sizes {
        b: breadth(d, e),
        d,
        e,
    };
    let t = columns(w, n, f, g, s);
    let u = band_rows::come_in(w, n, f, g, s, d + e - 1, t);
    u.factor
}

// The resultant of f and g, with its cofactors in u and v. The last row is one word and its multipliers.
pub fn cofactors(u: &mut [u32], v: &mut [u32], w: &mut [u32], n: u32, f: &[u32], g: &[u32]) -> u32
    requires { CofactorsAsked n f.now g.now u.old v.old w.old }
    ensures resultant_cofactors { ResultantCofactors n f.now g.now u.new v.new result }
    ensures scratch { Scratch w.old w.new }
{
    let x = last_row(w, n, f, g);
    scale_into(u, w, n, x, FIRST);
    scale_into(v, w, n, x, SECOND);
    arithmetic::mul_mod(n, x, w[0])
}
