// Euclid without inverses: what it keeps and what it answers. The laws of its steps, for words of any width and form, are in
// proofs/Stepping, and what they are about in specs/Standing; the functions are those of `resultant_euclid` and `resultant_euclid64`.
//
//   NotUnit    what stands in place of a value: a product of leading words that is no unit
//   State      where the run stands
#![tactic(auto)]

// A product of leading words that is no unit. Where every lead is a unit, the attempt comes to the value, by one inverse.
#[derive(Clone, Copy)]
pub struct NotUnit<W> {
    pub product: W,
}

// f of degree d at a, g of degree e at b. p is the product of the powers of leading words taken so far, s that of the p's at each degree,
// t what zero leading words gave: s p^d times the resultant asked for is p t times that of f and g.
#[derive(Clone, Copy)]
pub struct State {
    pub a: usize,
    pub d: usize,
    pub b: usize,
    pub e: usize,
    pub s: u32,
    pub p: u32,
    pub t: u32,
}
