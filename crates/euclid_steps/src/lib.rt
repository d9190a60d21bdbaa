// Euclid without inverses: what its steps keep, forwards on the pair and backwards on the multipliers. The laws of a step, for words of any
// width and form, are in specs/Steps and specs/Turning; what the functions of `resultant_euclid`, `multiplier_steps` and
// `euclid_multipliers` promise
// is in specs/Stages, Backs, Trails and Multiplied. No code.
//
//   Stage     where the run stands, and the step that led there
//   Logged    what is kept of a step
//   Found     where the multipliers stand
//   Ending    the same at the end, with what is known of the resultant
#![tactic(auto)]

// f of degree d at a, g of degree e at b. p is the product of the powers of leading words taken so far, s that of the p's at each degree,
// t what zero leading words gave: s p^d times the resultant asked for is p t times that of f and g. The last step took y times the g before
// it, less c X + k times the f before it, and f became g (swap); or less k X^(e - d) times f, and f stayed. At the beginning they are 0.
#[derive(Clone, Copy)]
pub struct Stage<W> {
    pub a: usize,
    pub d: usize,
    pub b: usize,
    pub e: usize,
    pub s: W,
    pub p: W,
    pub t: W,
    pub y: W,
    pub c: W,
    pub k: W,
    pub swap: bool,
}

// A step: f of degree d and g of degree e before it. With swap it took y times g less (c X + k) f, and f took the place of g; without, y
// times g less k X^(e - d) f, and f stayed.
#[derive(Clone, Copy)]
pub struct Logged<W> {
    pub d: usize,
    pub e: usize,
    pub y: W,
    pub c: W,
    pub k: W,
    pub swap: bool,
}

// beta at u, gamma at v, and the factor k of gamma; d and e are the degrees of f and g.
#[derive(Clone, Copy)]
pub struct Found<W> {
    pub u: usize,
    pub v: usize,
    pub k: W,
    pub d: usize,
    pub e: usize,
}

// beta at u, gamma at v, and the factor k of gamma; c is the constant, and s times the resultant is p t c^e.
#[derive(Clone, Copy)]
pub struct Ending<W> {
    pub u: usize,
    pub v: usize,
    pub k: W,
    pub c: W,
    pub s: W,
    pub p: W,
    pub t: W,
    pub e: usize,
}
