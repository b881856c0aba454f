// How two words are added and subtracted.
ghost use Rattle.std.specs.Prelude.{◌≡◌, ℕ, ◌+◌, ◌-◌, ◌%◌, ◌^◌, min};
ghost use Rattle.word.specs.Words.{Word, top};
ghost use Rattle.std.proofs.Common.{rules};

// An arithmetic gives the sum and the difference of two words, each a function of the two.
// All that is built over it rests on these laws alone.
pub trait Arithmetic {
    ghost plus: { ℕ → ℕ → ℕ };

    ghost minus: { ℕ → ℕ → ℕ };

    fn sum(a: u32, b: u32) -> u32
        ensures { result ≡ plus a b };

    fn difference(a: u32, b: u32) -> u32
        ensures { result ≡ minus a b };

    // 0 + v = v
    ghost zero: { (v : ℕ) → Word v → plus 0 v ≡ v };

    // a + b = b + a
    ghost swap: { (a b : ℕ) → Word a → Word b → plus a b ≡ plus b a };

    // The results are words.
    ghost sums: { (a b : ℕ) → Word a → Word b → Word (plus a b) };

    ghost differences: { (a b : ℕ) → Word a → Word b → Word (minus a b) };
}

// Works modulo 2^32.
#[derive(Clone, Copy, Debug, PartialEq, Eq)]
pub struct Wrap;

impl Arithmetic for Wrap {
    ghost plus = { λ a b. (a + b) % 2 ^ 32 };

    ghost minus = { λ a b. (a + (2 ^ 32 - b)) % 2 ^ 32 };

    ghost zero = { Prim.search rules };

    ghost swap = { Prim.search rules };

    ghost sums = { Prim.search rules };

    ghost differences = { Prim.search rules };

    fn sum(a: u32, b: u32) -> u32 {
        a.wrapping_add(b)
    }

    fn difference(a: u32, b: u32) -> u32 {
        a.wrapping_sub(b)
    }
}

// Stops at the ends: the top word for a larger sum, 0 for a difference below 0.
#[derive(Clone, Copy, Debug, PartialEq, Eq)]
pub struct Clamp;

impl Arithmetic for Clamp {
    ghost plus = { λ a b. min (a + b) top };

    ghost minus = { λ a b. a - b };

    ghost zero = { Prim.search rules };

    ghost swap = { Prim.search rules };

    ghost sums = { Prim.search rules };

    ghost differences = { Prim.search rules };

    fn sum(a: u32, b: u32) -> u32 {
        a.saturating_add(b)
    }

    fn difference(a: u32, b: u32) -> u32 {
        a.saturating_sub(b)
    }
}
