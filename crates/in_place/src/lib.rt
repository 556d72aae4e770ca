// Keccak-p[1600, 24] in the state itself. All of it stands in specs/: where the lanes stand, what a row and a round make of them there, and laws that this is
// FIPS 202's round. The code is in keccak_rows, keccak_even, keccak_odd, keccak_places and keccak; the permutation's own contract does not cite this.
#![tactic(auto)]
