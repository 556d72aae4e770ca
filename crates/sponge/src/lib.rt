// The sponge with Keccak-p[1600, 24] at a rate of 136 bytes (FIPS 202, chapter 4), run piece by piece.
#![tactic(auto)]

ghost use Rattle.std.specs.Prelude.{◌≡◌, ◌-◌, ◌%◌, ◌<◌, length, drop, replicate};
ghost use Rattle.std.proofs.lemmas.List.Edits.{sets};
ghost use Rattle.encode.specs.Padding.{rate, shortfall};
ghost use Rattle.sponge.specs.Running.{running, state_of, fresh, absorb_byte, absorbed, finished, squeezed, after};

use blocks_in::absorb_blocks;
use blocks_out::squeeze_blocks;
use encode::RATE;
use keccak::permute;
use lanes_in::{xor_byte, xor_in};
use lanes_out::put_out;

#[derive(Clone, Copy)]
pub struct Sponge {
    pub lanes: [u64; 25],
    // That of the next byte in the block. A position at which the block is full, or beyond, is taken modulo 136 where bytes are put in.
    pub position: usize,
}

impl Sponge {
    // Before any input.
    pub fn new() -> Sponge
        ensures { state_of result ≡ fresh }
    {
        Sponge {
            lanes: [0u64; 25],
            position: 0,
        }
    }

    // The piece from `from` on, where a block begins: its whole blocks, and the beginning of the next one.
    #[tactic(auto, using(crate::proofs::Absorbing::absorbed_from))]
    fn absorb_from(&mut self, piece: &[u8], from: usize)
        ensures { (state_of self.new ≡ absorbed (running self.old.lanes 0) (drop from piece.now)) × (self.new.position < rate) }
    {
        let at = absorb_blocks(&mut self.lanes, piece, from);
        self.position = xor_in(&mut self.lanes, 0, piece, at);
    }

    // A piece of input put in.
    #[tactic(auto, using(crate::proofs::Absorbing::absorbed_begun, crate::proofs::Absorbing::absorbed_filled))]
    pub fn absorb(&mut self, piece: &[u8])
        ensures { (state_of self.new ≡ absorbed (running self.old.lanes (self.old.position % rate)) piece.now) × (self.new.position < rate) }
    {
        let p = self.position % RATE;
        if p == 0 {
            self.absorb_from(piece, 0);
            return;
        }
        let n = xor_in(&mut self.lanes, p, piece, 0);
        if p + n < RATE {
            self.position = p + n;
            return;
        }
        permute(&mut self.lanes);
        self.absorb_from(piece, n);
    }

    // The byte `b` put in.
    #[tactic(auto, using(crate::proofs::Absorbing::absorb_byte_in, crate::proofs::Absorbing::absorb_byte_last))]
    pub fn absorb_byte(&mut self, b: u8)
        ensures { (state_of self.new ≡ absorb_byte (running self.old.lanes (self.old.position % rate)) b) × (self.new.position < rate) }
    {
        xor_byte(&mut self.lanes, self.position, b);
        self.position = self.position % RATE + 1;
        if self.position == RATE {
            permute(&mut self.lanes);
            self.position = 0;
        }
    }

    // Zeros put in to the end of the block that has begun, as bytepad asks: they change no byte.
    #[tactic(auto, using(crate::proofs::Whole::absorbed_zeros), unfolding(crate::specs::Running::absorbed))]
    pub fn pad_zeros(&mut self)
        ensures { (state_of self.new ≡ absorbed (running self.old.lanes (self.old.position % rate)) (replicate (shortfall rate self.old.position) 0))
            × (self.new.position ≡ 0) }
    {
        if self.position % RATE != 0 {
            permute(&mut self.lanes);
        }
        self.position = 0;
    }

    // The end of the input: the suffix byte, the padding, and the last block's permutation. Output starts at position 0.
    #[tactic(auto, unfolding(crate::specs::Running::finished))]
    pub fn finish(&mut self, suffix: u8)
        ensures { (state_of self.new ≡ finished suffix (running self.old.lanes (self.old.position % rate))) × (self.new.position ≡ 0) }
    {
        xor_byte(&mut self.lanes, self.position, suffix);
        xor_byte(&mut self.lanes, RATE - 1, 0x80);
        permute(&mut self.lanes);
        self.position = 0;
    }

    // `out` filled with output from `from` on, after a block that has been squeezed whole: whole blocks, and the beginning of the next one.
    fn squeeze_from(&mut self, out: &mut [u8], from: usize)
        ensures { (state_of self.new ≡ after (length out.old - from) (running self.old.lanes rate))
            × (out.new ≡ sets out.old from (squeezed (length out.old - from) (running self.old.lanes rate))) }
    {
        let at = squeeze_blocks(&mut self.lanes, out, from);
        if out.len() <= at {
            self.position = RATE;
            return;
        }
        permute(&mut self.lanes);
        self.position = put_out(out, at, &self.lanes, 0);
    }

    // `out` filled with output.
    pub fn squeeze(&mut self, out: &mut [u8])
        ensures { (state_of self.new ≡ after (length out.old) (state_of self.old))
            × (out.new ≡ squeezed (length out.old) (state_of self.old)) }
    {
        let n = put_out(out, 0, &self.lanes, self.position);
        if out.len() <= n {
            self.position += n;
            return;
        }
        self.squeeze_from(out, n);
    }
}
