//! Sets of task numbers as words of 32 bits: bit k stands for task k.
#![tactic(auto)]

ghost use Rattle.std.specs.Iterator.{at_most};
ghost use Rattle.std.specs.Prelude.{◌≡◌, ℕ, ◌<◌, ◌≤◌, true, not, ◌&&◌, ◌||◌, ◌==◌};
ghost use Rattle.words.specs.Bits.{has, Lowest, TakesLowest};

/// The lowest bit of the word, or `None` if the word is 0.
pub fn lowest(word: u32) -> Option<u32>
    ensures { Lowest word result }
{
    if word == 0 {
        None
    } else {
        Some(word.trailing_zeros())
    }
}

/// Whether bit k of the word is set; no bit from 32 on is.
pub fn contains(word: u32, k: u32) -> bool
    ensures { result ≡ has word k }
{
    k < 32 && (word >> k) % 2 == 1
}

/// The word with bit k clear; if bit k was set, the word is less than before.
pub fn without(word: u32, k: u32) -> u32
    ensures bits { (j : ℕ) → has result j ≡ (has word j && not (j == k)) }
    ensures less { has word k ≡ true → result < word }
{
    if contains(word, k) {
        word - (1 << k)
    } else {
        word
    }
}

/// The word with bit k set; from k = 32 on, where there is no such bit, the word itself.
pub fn with(word: u32, k: u32) -> u32
    ensures bits { k < 32 → (j : ℕ) → has result j ≡ (has word j || j == k) }
    ensures beyond { 32 ≤ k → result ≡ word }
{
    if k < 32 { word | (1 << k) } else { word }
}

/// The bits of either word.
pub fn union(a: u32, b: u32) -> u32
    ensures bits { (j : ℕ) → has result j ≡ (has a j || has b j) }
{
    a | b
}

/// A walk of the set bits of a word, lowest first.
#[derive(Clone, Copy)]
pub struct SetBits {
    rest: u32,
}

/// The set bits of the word, lowest first.
pub fn bits(word: u32) -> SetBits
    ensures { result.rest ≡ word }
{
    SetBits { rest: word }
}

impl Iterator for SetBits {
    type Item = u32;

    ghost next_gives = { λ s r t. TakesLowest s.rest r t.rest };

    ghost remaining = { λ s. at_most s.rest };

    fn next(&mut self) -> Option<u32> {
        let k = lowest(self.rest)?;
        self.rest -= 1 << k;
        Some(k)
    }
}
