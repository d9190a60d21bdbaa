// One attempt at a resultant modulo n, words of 64 bits: it ends in the value, or in a split of n. The degree d of f, at most that of g,
// falls. The 32-bit twin `resultant_attempt` has the laws.
//
//   w, n   the buffer and the modulus; m the record of n
//   a, d   the place and the degree of f; b, e those of g; p all four; i the inverse of a leading word
//   s, x   from these places on the buffer is free
//   h, v   the places of the monic factor of f, of degree t, and of the room after it; u the place of the unit factor
//
//   euclid                  the attempt; it divides while each leading word is a unit, with no copies
//   step                    one division
//   dropped                 a leading word that is 0
//   from_below              a leading word that is no unit: the other end is tried
//   reversed                a constant that is a unit
//   by_content, primitive   a leading word that is no unit: the content, and the highest coefficient that is not nilpotent
//   factors                 f as a unit polynomial times a monic one; monic_part and unit_part are the attempts at the two
#![tactic(auto)]

ghost use Rattle.std.specs.Prelude.{◌≡◌, ◌+◌, ◌*◌, ◌%◌, ◌<◌, ◌≤◌, get_or};
ghost use Rattle.definitions.specs.Residues.{IsUnit};
ghost use Rattle.definitions.specs.Resultants.{resultant};
ghost use Rattle.windows.specs.Window.{piece, Kept, Scratch};
ghost use Rattle.reduction64.specs.Moduli.{Ready};
ghost use Rattle.resultant_steps.specs.AttemptAnswers.{ValueOrSplit};
ghost use Rattle.resultant_steps.specs.Layouts.{Primitive};
ghost use Rattle.window_factor.specs.Factors.{LeadingUnit};
ghost use Rattle.resultant_attempt.specs.AttemptStages.{Placed, DivisorPlaced, Stacked, Part};

use reduction64::Reciprocal;
use residue::Split;
use window_factor::Highest;

// f of degree d at a, and g of degree e at b.
#[derive(Clone, Copy)]
struct Pair {
    a: usize,
    d: usize,
    b: usize,
    e: usize,
}

// The resultant of f of degree d at a and g of degree e at b. Both are lost, and so are the words from s on.
#[cycle(by_content_dropped_euclid_factors_from_below_monic_part_primitive_reversed_step_unit_part)]
pub fn euclid(
    w: &mut [u64],
    m: Reciprocal,
    a: usize,
    d: usize,
    b: usize,
    e: usize,
    s: usize,
) -> Result<u64, Split<u64>>
    requires ready { Ready m }
    requires placed { Placed m.n a d b e s w.old }
    ensures value_or_split { ValueOrSplit m.n (resultant m.n (piece w.old a (d + 1)) (piece w.old b (e + 1))) result }
    ensures scratch { Scratch w.old w.new }
{
    let lead = w[a + d];
    if d == 0 {
        return Ok(reduction64::power(m, lead, e));
    }
    if lead == 0 {
        return dropped(w, m, a, d, b, e, s);
    }
    let x = bezout64::cofactor(m.n, lead);
    if x.g == 1 {
        return step(w, m, Pair { a, d, b, e }, s, x.s);
    }
    from_below(w, m, a, d, b, e, s)
}

// The same, where the leading word of f is 0: it is dropped, which costs the leading word of g with the sign (-1)^e.
#[cycle(by_content_dropped_euclid_factors_from_below_monic_part_primitive_reversed_step_unit_part)]
fn dropped(
    w: &mut [u64],
    m: Reciprocal,
    a: usize,
    d: usize,
    b: usize,
    e: usize,
    s: usize,
) -> Result<u64, Split<u64>>
    requires ready { Ready m }
    requires placed { (Placed m.n a d b e s w.old) × ((1 ≤ d) × (get_or w.old (a + d) 0 ≡ 0)) }
    ensures { ValueOrSplit m.n (resultant m.n (piece w.old a (d + 1)) (piece w.old b (e + 1))) result }
{
    let c = w[b + e];
    let r = euclid(w, m, a, d - 1, b, e, s);
    resultant_steps64::times_sign(m.n, 1, e, resultant_steps64::times(m, c, r))
}

// The same, where the leading word of f is no unit: the constant may be one.
#[cycle(by_content_dropped_euclid_factors_from_below_monic_part_primitive_reversed_step_unit_part)]
fn from_below(
    w: &mut [u64],
    m: Reciprocal,
    a: usize,
    d: usize,
    b: usize,
    e: usize,
    s: usize,
) -> Result<u64, Split<u64>>
    requires ready { Ready m }
    requires placed { (Placed m.n a d b e s w.old) × (1 ≤ d) }
    ensures { ValueOrSplit m.n (resultant m.n (piece w.old a (d + 1)) (piece w.old b (e + 1))) result }
{
    let y = bezout64::cofactor(m.n, w[a]);
    if y.g == 1 {
        return reversed(w, m, Pair { a, d, b, e }, s, y.s);
    }
    resultant_steps64::copy_pair(w, b, e + 1, a, d + 1, s);
    by_content(&mut w[s..], m, d, e)
}

// The same, where the constant of f has the inverse i: both are reversed, which brings it to the lead.
#[cycle(by_content_dropped_euclid_factors_from_below_monic_part_primitive_reversed_step_unit_part)]
fn reversed(w: &mut [u64], m: Reciprocal, p: Pair, s: usize, i: u64) -> Result<u64, Split<u64>>
    requires ready { Ready m }
    requires part { (Part m.n p.a p.d p.b p.e s w.old) × ((1 ≤ p.d) × ((i * get_or w.old p.a 0) % m.n ≡ 1 % m.n)) }
    ensures { ValueOrSplit m.n
        (resultant m.n (piece w.old p.a (p.d + 1)) (piece w.old p.b (p.e + 1))) result }
{
    let d = p.d;
    let e = p.e;
    let l = d + 1;
    let k = e + 1;
    resultant_steps64::copy_pair_reversed(w, p.a, l, p.b, k, s);
    let r = step(&mut w[s..], m, Pair { a: 0, d, b: l, e }, l + k, i);
    resultant_steps64::times_sign(m.n, d, e, r)
}

// The same, where the leading word of f has the inverse i: a division, and the remainder and f after it.
#[cycle(by_content_dropped_euclid_factors_from_below_monic_part_primitive_reversed_step_unit_part)]
fn step(w: &mut [u64], m: Reciprocal, p: Pair, s: usize, i: u64) -> Result<u64, Split<u64>>
    requires ready { Ready m }
    requires divisor_placed { DivisorPlaced m.n p.a p.d p.b p.e s i w.old }
    ensures { ValueOrSplit m.n
        (resultant m.n (piece w.old p.a (p.d + 1)) (piece w.old p.b (p.e + 1))) result }
{
    let lead = w[p.a + p.d];
    window_division64::divide(w, m, p.a, p.d, p.b, p.e, i);
    let r = euclid(w, m, p.b, p.d - 1, p.a, p.d, s);
    resultant_steps64::times(m, reduction64::power(m, lead, p.e + 1 - p.d), r)
}

// The same for g at 0 and f above it, whose leading word is no unit: the content of f is taken out first.
#[cycle(by_content_dropped_euclid_factors_from_below_monic_part_primitive_reversed_step_unit_part)]
fn by_content(w: &mut [u64], m: Reciprocal, d: usize, e: usize) -> Result<u64, Split<u64>>
    requires ready { Ready m }
    requires stacked { Stacked m.n d e w.old }
    ensures { ValueOrSplit m.n (resultant m.n (piece w.old (e + 1) (d + 1))
        (piece w.old 0 (e + 1))) result }
{
    let x = resultant_steps64::clear_content(w, m, d, e);
    if x.c == m.n {
        return Ok(0);
    }
    let r = resultant_steps64::lifted(m, primitive(w, x.v, d, e));
    resultant_steps64::times(m, reduction64::power(m, x.c, e), r)
}

// The same where f is primitive: some coefficient is not nilpotent.
#[cycle(by_content_dropped_euclid_factors_from_below_monic_part_primitive_reversed_step_unit_part)]
fn primitive(w: &mut [u64], m: Reciprocal, d: usize, e: usize) -> Result<u64, Split<u64>>
    requires ready { Ready m }
    requires stacked { Stacked m.n d e w.old }
    requires primitive { Primitive m.n (piece w.old (e + 1) (d + 1)) }
    ensures { ValueOrSplit m.n (resultant m.n (piece w.old (e + 1) (d + 1))
        (piece w.old 0 (e + 1))) result }
{
    let a = e + 1;
    let s = a + (d + 1);
    match window_factor64::highest_of(&w[a..s], m) {
        Highest::UnitAt(t, i) => {
            if t == d {
                return step(w, m, Pair { a, d, b: 0, e }, s, i);
            }
            factors(w, m, d, e, t, i)
        }
        Highest::Splits(p, q) => Err(Split { p, q }),
        Highest::AllNilpotent => Ok(0),
    }
}

// The same where coefficient t of f, below the leading one, has the inverse i and those above it are nilpotent: f is a unit
// polynomial times a monic one of degree t, and the resultant is the product of theirs.
#[cycle(by_content_dropped_euclid_factors_from_below_monic_part_primitive_reversed_step_unit_part)]
fn factors(
    w: &mut [u64],
    m: Reciprocal,
    d: usize,
    e: usize,
    t: usize,
    i: u64,
) -> Result<u64, Split<u64>>
    requires ready { Ready m }
    requires stacked { (Stacked m.n d e w.old) × (t < d) }
    requires leading_unit { LeadingUnit m.n t i (piece w.old (e + 1) (d + 1)) }
    ensures { ValueOrSplit m.n (resultant m.n (piece w.old (e + 1) (d + 1))
        (piece w.old 0 (e + 1))) result }
{
    let a = e + 1;
    let l = d + 1;
    let h = a + l;
    let v = h + (t + 1);
    let u = v + t;
    let x = v + l;
    window_factor64::unit_times_monic(&mut w[a..], m, d, t, i);
    // Kept: a `match` where `?` would do; tried, and the proof of the ten functions that call one another did not close.
    match monic_part(w, m, h, t, e, x) {
        Ok(y) => resultant_steps64::times(m, y, unit_part(w, m, u, d - t, e, x)),
        Err(s) => Err(s),
    }
}

// The resultant of the monic polynomial of degree t at a and of g at 0, worked from x on.
#[cycle(by_content_dropped_euclid_factors_from_below_monic_part_primitive_reversed_step_unit_part)]
fn monic_part(
    w: &mut [u64],
    m: Reciprocal,
    a: usize,
    t: usize,
    e: usize,
    x: usize,
) -> Result<u64, Split<u64>>
    requires ready { Ready m }
    requires part { (Part m.n a t 0 e x w.old) × (get_or w.old (a + t) 0 ≡ 1) }
    ensures value_or_split { ValueOrSplit m.n (resultant m.n (piece w.old a (t + 1)) (piece w.old 0 (e + 1))) result }
    ensures kept { Kept x w.old w.new }
{
    if t == 0 {
        return Ok(1);
    }
    let l = t + 1;
    let k = e + 1;
    resultant_steps64::copy_pair(w, a, l, 0, k, x);
    let p = Pair {
        a: 0,
        d: t,
        b: l,
        e,
    };
    step(&mut w[x..], m, p, l + k, 1)
}

// The same for a polynomial of degree k whose constant is a unit.
#[cycle(by_content_dropped_euclid_factors_from_below_monic_part_primitive_reversed_step_unit_part)]
fn unit_part(
    w: &mut [u64],
    m: Reciprocal,
    a: usize,
    k: usize,
    e: usize,
    x: usize,
) -> Result<u64, Split<u64>>
    requires ready { Ready m }
    requires part { (Part m.n a k 0 e x w.old) × ((1 ≤ k) × (IsUnit m.n (get_or w.old a 0))) }
    ensures { ValueOrSplit m.n (resultant m.n (piece w.old a (k + 1)) (piece w.old 0 (e + 1))) result }
{
    let i = bezout64::cofactor(m.n, w[a]);
    let p = Pair { a, d: k, b: 0, e };
    reversed(w, m, p, x, i.s)
}
