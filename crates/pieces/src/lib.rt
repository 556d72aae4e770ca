// A request for stream cut into pieces of 208 bytes, the last one cut (cSHAKE-DRNG, 1.1.5, and KMAC-DRNG, 1.2.5; docs/RULES.md, 'Generators'). What makes a
// piece is a generator's own; the definitions and the laws that a generator's loop is proved by stand in specs/.
#![tactic(auto)]

ghost use Rattle.std.specs.Prelude.{◌≡◌};
ghost use Rattle.pieces.specs.Pieces.{piece_count, cut};

// 2 * 1,088 - 512 bits.
pub const PIECE_BYTES: usize = 208;

// The pieces that a request of this many bytes takes.
#[tactic(auto, unfolding(crate::specs::Pieces::piece_count))]
pub fn piece_count(bytes: usize) -> usize
    ensures { result ≡ piece_count bytes }
{
    bytes.div_ceil(PIECE_BYTES)
}

// The bytes of the next piece, where this many are left to give.
#[tactic(auto, unfolding(crate::specs::Pieces::cut))]
pub fn cut(left: usize) -> usize
    ensures { result ≡ cut left }
{
    left.min(PIECE_BYTES)
}
