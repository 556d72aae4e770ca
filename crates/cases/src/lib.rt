// The cases that a program of the gate reads, one after another. First stands how many they are, in a word. A case is a letter, words of four bytes, lowest
// byte first, and then two strings: as many bytes as the first word says, and then as many as the second says. From 2^24 on, that many zeros less 2^24 are
// meant, and none stand there.
#![tactic(auto)]

ghost use Rattle.std.specs.Prelude.{◌≡◌, ◌↔◌, ◌+◌, ◌-◌, ◌*◌, ◌^◌, cond, eqb, drop, IsNone, IfSome};
ghost use Rattle.std.specs.Iterator.{at_most};
ghost use Rattle.testing.specs.Data.{word_of};
ghost use Rattle.cases.specs.Cases.{standing, string_of, Reads, after_case};

use testing::{byte_at, first, rest, word};

// From here on a length means zeros.
const ZEROS: u32 = 16777216;

#[derive(Clone, Copy)]
pub struct Case<'a> {
    pub letter: u8,
    pub words: &'a [u8],
    pub first: &'a [u8],
    pub second: &'a [u8],
}

impl<'a> Case<'a> {
    // The word at a place, which count from 0; 0 where there is none.
    pub fn word(&self, i: u8) -> u32
        ensures { result ≡ word_of (drop (4 * i) self.now.words.now) }
    {
        word(rest(self.words, 4 * usize::from(i)))
    }

    // The number of the word at a place and the one after it, the low one first.
    pub fn number(&self, i: u8) -> u64
        ensures { result ≡ word_of (drop (4 * i) self.now.words.now) + 2 ^ 32 * word_of (drop (4 * i + 4) self.now.words.now) }
    {
        let high = word(rest(self.words, 4 * usize::from(i) + 4));
        u64::from(self.word(i)) + (u64::from(high) << 32)
    }
}

// How many bytes stand there for a length.
fn standing(length: u32) -> usize
    ensures { result ≡ standing length }
{
    if length < ZEROS { length as usize } else { 0 }
}

// The string of this length that `bytes` begin with, or zeros.
fn string<'a>(length: u32, bytes: &'a [u8], zeros: &'a [u8]) -> &'a [u8]
    ensures { result.now ≡ string_of length bytes.now zeros.now }
{
    if length < ZEROS {
        return first(bytes, length as usize);
    }
    first(zeros, (length - ZEROS) as usize)
}

// The cases of an input; one has HEAD bytes before its strings, the letter and the words.
#[derive(Drop)]
pub struct Cases<'a, const HEAD: usize> {
    pub left: u32,
    pub input: &'a [u8],
    pub zeros: &'a [u8],
}

impl<'a, const HEAD: usize> Cases<'a, HEAD> {
    pub fn new(input: &'a [u8], zeros: &'a [u8]) -> Cases<'a, HEAD>
        ensures count { result.left ≡ word_of input.now }
        ensures input { result.input.now ≡ drop 4 input.now }
        ensures zeros { result.zeros.now ≡ zeros.now }
    {
        Cases {
            left: word(input),
            input: rest(input, 4),
            zeros,
        }
    }

    // The case that stands next, and the input goes on after it.
    pub fn read(&mut self) -> Case<'a>
        ensures case { Reads HEAD self.old.input.now self.old.zeros.now result }
        ensures after { self.new.input.now ≡ after_case HEAD self.old.input.now }
        ensures kept { (self.new.left ≡ self.old.left) × (self.new.zeros.now ≡ self.old.zeros.now) }
    {
        let letter = byte_at(self.input, 0);
        let words = rest(first(self.input, HEAD), 1);
        let first_length = word(words);
        let second_length = word(rest(words, 4));
        let strings = rest(self.input, HEAD);
        let after_first = rest(strings, standing(first_length));
        self.input = rest(after_first, standing(second_length));
        Case {
            letter,
            words,
            first: string(first_length, strings, self.zeros),
            second: string(second_length, after_first, self.zeros),
        }
    }
}

impl<'a, const HEAD: usize> Iterator for Cases<'a, HEAD> {
    type Item = Case<'a>;

    ghost remaining = { λ s. at_most s.left };

    ghost next_gives = { λ s r t. (IsNone r ↔ (s.left ≡ 0)) × IfSome r (Reads HEAD s.input.now s.zeros.now)
        × (t.input.now ≡ cond (eqb s.left 0) s.input.now (after_case HEAD s.input.now))
        × (t.left ≡ s.left - 1) × (t.zeros.now ≡ s.zeros.now) };

    fn next(&mut self) -> Option<Case<'a>> {
        if self.left == 0 {
            return None;
        }
        self.left -= 1;
        Some(self.read())
    }
}
