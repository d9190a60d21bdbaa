// Rows of Sylvester's matrix come in and leave: those that begin at a column come in below the live ones, and the row with the column's
// only word leaves, its word a factor of the resultant, with its sign.
//
//   row r    ROW words from ROW r on: b words, at FIRST the multiplier of f, at SECOND that of g (band_clearing)
//
//   Stage                            how many rows are live, and the factor
//   put_reversed, enter, come_in     rows that come in
//   shift_row, shift_rows, leave     the row with the column's only word leaves
#![tactic(auto)]

ghost use Rattle.std.specs.Prelude.{◌+◌, ◌≤◌, length};
ghost use Rattle.windows.specs.Window.{Written};
ghost use Rattle.band_clearing.specs.Bands.{from_top, EnterAsked, RowEntered, ShiftAsked, RowShifted, Shifted};
ghost use Rattle.band_clearing.specs.Bands.{LeaveAsked, RowLeft, ComeAsked, CameIn};

use band_clearing::{FIRST, ROW, SECOND, Sizes};

// How many rows are live, and the factor that the rows which left make, with its sign.
#[derive(Clone, Copy)]
pub struct Stage {
    pub rows: usize,
    pub factor: u32,
}

// The words of h at a place, the top word first.
fn put_reversed(w: &mut [u32], at: usize, h: &[u32])
    requires { at + length h.now ≤ length w.old }
    ensures { Written (from_top h.now) at (length h.now) w.old w.new }
{
    for j in 0..h.len() {
        w[at + j] = h[h.len() - 1 - j];
    }
}

// Row r becomes h with its top word first; its multiplier at place o is x^p, and the other is 0.
fn enter(w: &mut [u32], r: usize, h: &[u32], o: usize, p: usize)
    requires { EnterAsked r h.now o p w.old }
    ensures { RowEntered r h.now o p w.old w.new }
{
    let at = ROW * r;
    windows::clear(w, at, ROW);
    put_reversed(w, at, h);
    w[at + (o + p)] = 1;
}

// Row i one column on.
fn shift_row(w: &mut [u32], i: usize, b: usize)
    requires { ShiftAsked (i + 1) b w.old }
    ensures { RowShifted i b w.old w.new }
{
    let at = ROW * i;
    windows::copy(w, at + 1, at, b - 1);
    w[at + (b - 1)] = 0;
}

// The first l rows one column on.
fn shift_rows(w: &mut [u32], l: usize, b: usize)
    requires { ShiftAsked l b w.old }
    ensures { Shifted l b w.old w.new }
{
    for i in 0..l {
        shift_row(w, i, b);
    }
}

// The rows that begin at column j: x^(e - 1 - j) f below the l live rows, and below it x^(d - 1 - j) g, which passes the rows of f that are
// still to come.
pub fn come_in(w: &mut [u32], n: u32, f: &[u32], g: &[u32], s: Sizes, j: usize, t: Stage) -> Stage
    requires { ComeAsked n f.now g.now s.d s.e j t.rows t.factor w.old }
    ensures { CameIn n f.now g.now s.d s.e j t.rows t.factor w.old result.rows result.factor
        w.new }
{
    let l = t.rows;
    let x = t.factor;
    if j < s.e {
        enter(w, l, f, FIRST, s.e - 1 - j);
        if j < s.d {
            enter(w, l + 1, g, SECOND, s.d - 1 - j);
            return Stage {
                rows: l + 2,
                factor: resultant_signs::with_sign(n, s.e - 1 - j, x),
            };
        }
        return Stage {
            rows: l + 1,
            factor: x,
        };
    }
    if j < s.d {
        enter(w, l, g, SECOND, s.d - 1 - j);
        return Stage {
            rows: l + 1,
            factor: x,
        };
    }
    t
}

// Of l + 1 rows row t leaves, and row l takes its place; the others are one column on. Its word becomes a factor, with the sign of the
// exchange and that of the last row.
pub fn leave(w: &mut [u32], n: u32, t: usize, l: usize, b: usize, x: u32) -> u32
    requires { LeaveAsked n b t l x w.old }
    ensures { RowLeft n b t l x w.old w.new result }
{
    let y = w[ROW * t];
    if t == l {
        shift_rows(w, l, b);
        return resultant_signs::with_sign(n, l, arithmetic::mul_mod(n, x, y));
    }
    windows::copy(w, ROW * l, ROW * t, ROW);
    shift_rows(w, l, b);
    let z = arithmetic::negate(n, x);
    resultant_signs::with_sign(n, l, arithmetic::mul_mod(n, z, y))
}
