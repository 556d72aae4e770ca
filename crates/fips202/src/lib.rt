// Keccak-p[1600, 24] as FIPS 202, chapter 3, defines it. All of it stands in specs/: the definitions that the permutation's contracts cite, and laws that
// several crates rest on. The code is in round_constants, keccak_rows, keccak_even, keccak_odd, keccak_places and keccak.
#![tactic(auto)]
