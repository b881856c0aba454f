// Where a line of an input ends, and the first word of a line.
ghost use Rattle.std.specs.Prelude.{◌≡◌, ℕ, ◌<◌, ◌≤◌, ◌≢◌, length, slice_index};
ghost use Rattle.text.specs.Bytes.{First};

// The index of the first such byte at or after `from`, or the input's length where there is none.
fn find_byte(input: &[u8], from: usize, byte: u8) -> usize
    ensures { First byte input.now from result }
{
    (from..input.len())
        .find(|i| input[*i] == byte)
        .unwrap_or(input.len())
}

// Where the line ends that begins at `from`: at a line feed, byte 10, or with the input.
pub fn line_end(input: &[u8], from: usize) -> usize
    ensures within { result ≤ length input.now }
    ensures forward { from ≤ length input.now → from ≤ result }
    ensures before { (k : ℕ) → from ≤ k → k < result → slice_index input.now k ≢ 10 }
    ensures found { result < length input.now → (from ≤ result) × (slice_index input.now result ≡ 10) }
{
    find_byte(input, from, b'\n')
}

// Where the first word of a line ends: at a space, byte 32, or with the line.
pub fn word_end(line: &[u8]) -> usize
    ensures { First 32 line.now 0 result }
{
    find_byte(line, 0, b' ')
}
