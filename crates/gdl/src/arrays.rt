// A game in arrays of numbers, lent to whoever works on it: what goes together is passed together.
// Arrays of numbers side by side, and no arrays of structs: `Held` of specs/Layout.antt says of each which list it is.

// The atoms: their kinds and fields, each atom at its number in all three.
#[derive(Clone, Copy)]
pub struct AtomArrays<'a> {
    pub kinds: &'a [u16],
    pub firsts: &'a [u16],
    pub seconds: &'a [u16],
}

// The clauses: clause k has its head at k, and its literals from starts[k] up to starts[k + 1].
#[derive(Clone, Copy)]
pub struct ClauseArrays<'a> {
    pub heads: &'a [u16],
    pub starts: &'a [u16],
    pub literals: &'a [u16],
}
