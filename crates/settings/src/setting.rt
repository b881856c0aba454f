// The numbers of a setting, read and written. Every list of numbers says something, also one that no fit made.
ghost use Rattle.std.specs.Prelude.{◌≡◌, ◌<◌, ◌≤◌, ◌++◌, length, take, drop, slice_index};
ghost use Rattle.resolving.specs.Leaves.{operand};
ghost use Rattle.settings.specs.Settings.{leaf_from, leaf_at, leaf_numbers, operation_from, operation_number, predicate_from, predicate_number, left_leaf, right_leaf, has_room};

use resolving::{Leaf, Operation, Predicate};
use word::at;

// Whether a setting of so many numbers goes into the buffer. The top word stands for a length that is not told.
pub fn has_room(len: u32, buffer: &[u32]) -> bool
    ensures { result ≡ has_room len buffer.now }
{
    len < u32::MAX && len as usize <= buffer.len()
}

// The numbers from `from` on, `count` of them or as many as there are.
pub fn part(setting: &[u32], from: usize, count: usize) -> &[u32]
    ensures { result.now ≡ take count (drop from setting.now) }
{
    let rest = &setting[from.min(setting.len())..];
    &rest[..count.min(rest.len())]
}

// The two numbers that name a leaf: its kind, and its number or value.
#[derive(Clone, Copy)]
struct LeafNumbers {
    kind: u32,
    number: u32,
}

impl From<Leaf> for LeafNumbers {
    ghost from_gives = { λ leaf n. (n.kind, n.number) ≡ leaf_numbers leaf };

    fn from(leaf: Leaf) -> LeafNumbers {
        let (kind, number) = match leaf {
            Leaf::Old => (0, 0),
            Leaf::Field(i) => (1, i),
            Leaf::Line(n) => (2, n),
            Leaf::Constant(w) => (3, w),
        };
        LeafNumbers { kind, number }
    }
}

impl From<LeafNumbers> for Leaf {
    ghost from_gives = { λ n leaf. leaf ≡ leaf_from n.kind n.number };

    fn from(numbers: LeafNumbers) -> Leaf {
        let LeafNumbers { kind, number } = numbers;
        match kind {
            0 => Leaf::Old,
            1 => Leaf::Field(number),
            2 => Leaf::Line(number),
            _ => Leaf::Constant(number),
        }
    }
}

// The leaf that the numbers at i and i + 1 name.
fn leaf_at(setting: &[u32], i: usize) -> Leaf
    requires { i < 4 }
    ensures { result ≡ leaf_at setting.now i }
{
    let kind = at(setting, i, 0);
    let number = at(setting, i + 1, 0);
    LeafNumbers { kind, number }.into()
}

// The operation that the first three numbers say.
pub fn read_operation(setting: &[u32]) -> Operation
    ensures { result ≡ operation_from setting.now }
{
    let leaf = leaf_at(setting, 1);
    match at(setting, 0, 0) {
        1 => Operation::Add(leaf),
        2 => Operation::Subtract(leaf),
        _ => Operation::Set(leaf),
    }
}

// Writes the numbers of a setting at the front of a buffer; a shorter buffer stays as it was.
fn write<const N: usize>(setting: [u32; N], buffer: &mut [u32])
    ensures written { N ≤ length buffer.old → buffer.new ≡ setting.entry ++ drop N buffer.old }
    ensures short { length buffer.old < N → buffer.new ≡ buffer.old }
    ensures rest { drop N buffer.new ≡ drop N buffer.old }
{
    if let Some(front) = buffer.first_chunk_mut() {
        *front = setting;
    }
}

// Writes an operation into the first three numbers; a shorter buffer stays as it was.
pub fn write_operation(operation: Operation, buffer: &mut [u32])
    ensures written { 3 ≤ length buffer.old → operation_from buffer.new ≡ operation }
    ensures number { 3 ≤ length buffer.old → slice_index buffer.new 0 ≡ operation_number operation }
    ensures leaf { 3 ≤ length buffer.old → (slice_index buffer.new 1, slice_index buffer.new 2) ≡ leaf_numbers (operand operation) }
    ensures short { length buffer.old < 3 → buffer.new ≡ buffer.old }
    ensures rest { drop 3 buffer.new ≡ drop 3 buffer.old }
{
    let (kind, leaf) = match operation {
        Operation::Set(v) => (0, v),
        Operation::Add(v) => (1, v),
        Operation::Subtract(v) => (2, v),
    };
    let leaf = LeafNumbers::from(leaf);
    write([kind, leaf.kind, leaf.number], buffer);
}

// The predicate that the first five numbers say.
pub fn read_predicate(setting: &[u32]) -> Predicate
    ensures { result ≡ predicate_from setting.now }
{
    let left = leaf_at(setting, 1);
    let right = leaf_at(setting, 3);
    match at(setting, 0, 0) {
        0 => Predicate::Always,
        1 => Predicate::True(left),
        2 => Predicate::Less(left, right),
        _ => Predicate::Equal(left, right),
    }
}

// Writes a predicate into the first five numbers; a shorter buffer stays as it was.
pub fn write_predicate(predicate: Predicate, buffer: &mut [u32])
    ensures written { 5 ≤ length buffer.old → predicate_from buffer.new ≡ predicate }
    ensures number { 5 ≤ length buffer.old → slice_index buffer.new 0 ≡ predicate_number predicate }
    ensures left { 5 ≤ length buffer.old → (slice_index buffer.new 1, slice_index buffer.new 2) ≡ leaf_numbers (left_leaf predicate) }
    ensures right { 5 ≤ length buffer.old → (slice_index buffer.new 3, slice_index buffer.new 4) ≡ leaf_numbers (right_leaf predicate) }
    ensures short { length buffer.old < 5 → buffer.new ≡ buffer.old }
    ensures rest { drop 5 buffer.new ≡ drop 5 buffer.old }
{
    let (kind, left, right) = match predicate {
        Predicate::Always => (0, Leaf::Old, Leaf::Old),
        Predicate::True(a) => (1, a, Leaf::Old),
        Predicate::Less(a, b) => (2, a, b),
        Predicate::Equal(a, b) => (3, a, b),
    };
    let left = LeafNumbers::from(left);
    let right = LeafNumbers::from(right);
    write(
        [kind, left.kind, left.number, right.kind, right.number],
        buffer,
    );
}
