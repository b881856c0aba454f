// Comparisons of words, which every layer takes from here.
ghost use Rattle.std.specs.Prelude.{◌≡◌};
ghost use Rattle.word.specs.Words.{truth, less_than, equal_to};

// Whether a word is true: whether it is not 0.
pub fn is_true(word: u32) -> bool
    ensures { result ≡ truth word }
{
    word != 0
}

// 1 where a is below b as a whole number, else 0.
pub fn less(a: u32, b: u32) -> u32
    ensures { result ≡ less_than a b }
{
    u32::from(a < b)
}

// 1 where the two are the same number, else 0.
pub fn equal(a: u32, b: u32) -> u32
    ensures { result ≡ equal_to a b }
{
    u32::from(a == b)
}
