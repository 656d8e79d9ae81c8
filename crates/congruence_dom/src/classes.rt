/// The integers that are congruent to `residue` modulo `modulus`, which is not negative; modulo 0 the residue alone.
#[derive(Clone, Copy, PartialEq, Eq)]
pub struct Cong {
    pub residue: i128,
    pub modulus: i128,
}

/// A class of products of unsigned 64-bit numbers, which pass the range of `i128`.
#[derive(Clone, Copy, PartialEq, Eq)]
pub struct CongU {
    pub residue: u128,
    pub modulus: u128,
}
