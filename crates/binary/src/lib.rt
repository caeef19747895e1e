// Fields of 2^n codes, as polynomials over bits modulo one of degree n: their definition, in specs/, and the proof, for any
// n and modulus, that a few computed tests at powers of two give all of a field's laws.
#![tactic(auto)]
