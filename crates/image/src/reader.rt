// A reader over borrowed image bytes that remembers its offset.
ghost use Rattle.std.specs.Prelude.{◌≡◌, ◌+◌, ◌*◌, ◌^◌, ◌<◌, ◌≤◌, ◌&&◌, [], length, IfOk, if◌then◌else◌, ◌==◌, nat_lt};
ghost use Rattle.transaction.specs.Frames.{frames_of, elses};
ghost use Rattle.transaction.specs.WellFormed.{fits, after};
ghost use Rattle.image.specs.Reading.{ending, number_at, within_at, kind_at, place_at, target_at, operand_at, pair_at, rest_at, statements_at, program_at, front, said, told_by};
ghost use Rattle.image.specs.Theorem.{ReadExactly};

use crate::counts::Counts;
use transaction::{Kind, Nest, Operand, Place, ReadFault, Statement, Target, Transaction};

#[derive(Drop)]
pub struct Reader<'a> {
    bytes: &'a [u8],
    offset: usize,
    ghost inside: { offset ≤ length bytes.now },
}

// What group k of a number, counted from 0, adds to it.
fn weighed(group: u8, k: usize) -> u64
    requires { (group < 128) × (k < 5) }
    ensures value { result ≡ group * 2 ^ (7 * k) }
    ensures bound { result < 2 ^ 35 }
{
    u64::from(group) << (7 * k)
}

// Takes a statement's kind in; false, and nothing changes, where it may not stand at these open ifs.
fn enter(nest: &mut Nest<()>, kind: Kind) -> bool
    ensures answer { result ≡ fits kind (elses (frames_of nest.old)) }
    ensures opens { elses (frames_of nest.new) ≡ (if result then after kind (elses (frames_of nest.old)) else elses (frames_of nest.old)) }
{
    match kind {
        Kind::If => nest.open_if(()),
        Kind::Else => nest.turn(),
        Kind::End => nest.close(),
        _ => true,
    }
}

impl<'a> Reader<'a> {
    ghost use Rattle.image.specs.Reads.{Reads};

    // A reader at the first byte.
    pub fn new(bytes: &'a [u8]) -> Self
        ensures bytes { result.bytes.now ≡ bytes.now }
        ensures offset { result.offset ≡ 0 }
    {
        Reader { bytes, offset: 0 }
    }

    // The number that starts here: its last group is `byte`, the k-th, and those before came to `value`.
    fn finish(&mut self, byte: u8, k: usize, value: u64) -> Result<u32, ReadFault>
        requires group { (byte < 128) × (k < 5) }
        requires value { value ≤ k * 2 ^ 35 }
        requires room { self.old.offset + k < length self.old.bytes.now }
        ensures { Reads self.old self.new result (λ _ at. ending at (byte == 0 && nat_lt 0 k) (value + byte * 2 ^ (7 * k)) (at + k + 1)) }
    {
        let padded = byte == 0 && k > 0;
        match u32::try_from(value + weighed(byte, k)) {
            Ok(n) if !padded => {
                self.offset += k + 1;
                Ok(n)
            }
            _ => Err(ReadFault::Malformed(self.offset)),
        }
    }

    // The number that starts here; where it is refused, the reader stays.
    pub fn number(&mut self) -> Result<u32, ReadFault>
        ensures { Reads self.old self.new result number_at }
    {
        let mut value: u64 = 0;
        for (k, byte) in self.bytes[self.offset..].iter().take(5).enumerate() {
            if *byte < 128 {
                return self.finish(*byte, k, value);
            }
            value += weighed(*byte - 128, k);
        }
        Err(ReadFault::Malformed(self.offset))
    }

    // A number from `low` to `high`.
    pub fn within(&mut self, low: u8, high: u8) -> Result<u8, ReadFault>
        ensures { Reads self.old self.new result (within_at low high) }
    {
        let start = self.offset;
        match u8::try_from(self.number()?) {
            Ok(n) if (low..=high).contains(&n) => Ok(n),
            _ => Err(ReadFault::OutOfRange(start)),
        }
    }

    // A statement's kind.
    pub fn kind(&mut self) -> Result<Kind, ReadFault>
        ensures { Reads self.old self.new result kind_at }
    {
        let start = self.offset;
        let n = self.number()?;
        Kind::try_from(n).map_err(|_| ReadFault::Undefined(start))
    }

    fn place(&mut self, counts: Counts) -> Result<Place, ReadFault>
        ensures { Reads self.old self.new result (place_at counts.fields counts.states) }
    {
        let start = self.offset;
        let n = self.number()?;
        Place::from_number(n, counts.fields, counts.states).ok_or(ReadFault::Undefined(start))
    }

    pub fn target(&mut self, counts: Counts) -> Result<Target, ReadFault>
        ensures { Reads self.old self.new result (target_at counts.fields counts.states) }
    {
        let start = self.offset;
        match self.place(counts)? {
            Place::Field(i) => Ok(Target::Field(i)),
            Place::State(s) => Ok(Target::State(s)),
            Place::Constant => Err(ReadFault::Undefined(start)),
        }
    }

    pub fn operand(&mut self, counts: Counts) -> Result<Operand, ReadFault>
        ensures { Reads self.old self.new result (operand_at counts.fields counts.states) }
    {
        match self.place(counts)? {
            Place::Field(i) => Ok(Operand::Field(i)),
            Place::State(s) => Ok(Operand::State(s)),
            Place::Constant => Ok(Operand::Constant(self.number()?)),
        }
    }

    // A target and two operands.
    fn pair(&mut self, counts: Counts) -> Result<(Target, Operand, Operand), ReadFault>
        ensures { Reads self.old self.new result (pair_at counts.fields counts.states) }
    {
        Ok((
            self.target(counts)?,
            self.operand(counts)?,
            self.operand(counts)?,
        ))
    }

    // What follows the kind of a statement.
    pub fn statement(&mut self, kind: Kind, counts: Counts) -> Result<Statement, ReadFault>
        ensures { Reads self.old self.new result (rest_at kind counts.fields counts.states) }
    {
        match kind {
            Kind::Copy => Ok(Statement::Copy(self.target(counts)?, self.operand(counts)?)),
            Kind::Add => {
                let (target, a, b) = self.pair(counts)?;
                Ok(Statement::Add(target, a, b))
            }
            Kind::Sub => {
                let (target, a, b) = self.pair(counts)?;
                Ok(Statement::Sub(target, a, b))
            }
            Kind::Less => {
                let (target, a, b) = self.pair(counts)?;
                Ok(Statement::Less(target, a, b))
            }
            Kind::Equal => {
                let (target, a, b) = self.pair(counts)?;
                Ok(Statement::Equal(target, a, b))
            }
            Kind::Choose => {
                let (target, c, a) = self.pair(counts)?;
                let b = self.operand(counts)?;
                Ok(Statement::Choose(target, c, a, b))
            }
            Kind::If => Ok(Statement::If(self.operand(counts)?)),
            Kind::Else => Ok(Statement::Else),
            Kind::End => Ok(Statement::End),
        }
    }

    // The next `count` statements, at the front of a table.
    #[tactic(auto, using(crate::proofs::Tables::step))]
    fn statements(&mut self, counts: Counts, count: u8) -> Result<[Statement; 48], ReadFault>
        requires { count ≤ 48 }
        ensures long { IfOk result (λ table. length table ≡ 48) }
        ensures reads { Reads self.old self.new (front count result) (λ bs at. statements_at count counts.fields counts.states bs [] [] at) }
    {
        // By index, since the count of statements, and not the table's length, ends it: `iter_mut().take(..)` reads no plainer.
        let mut table = [Statement::End; 48];
        let mut nest = Nest::new(());
        for i in 0..usize::from(count) {
            let start = self.offset;
            let kind = self.kind()?;
            if !enter(&mut nest, kind) {
                return Err(ReadFault::Misnested(start));
            }
            table[i] = self.statement(kind, counts)?;
        }
        if !nest.open_ifs().is_empty() {
            return Err(ReadFault::Misnested(self.bytes.len()));
        }
        Ok(table)
    }

    // The transaction that starts here; nothing may follow it.
    pub fn transaction(&mut self) -> Result<Transaction, ReadFault>
        ensures { Reads self.old self.new (said result) program_at }
    {
        let _version = self.within(1, 1)?;
        let fields = self.within(1, 16)?;
        let states = self.within(0, 8)?;
        let count = self.within(0, 48)?;
        let statements = self.statements(Counts { fields, states }, count)?;
        if self.offset < self.bytes.len() {
            return Err(ReadFault::Trailing(self.offset));
        }
        Ok(Transaction {
            fields,
            states,
            count,
            statements,
        })
    }
}

// The transaction of an image. An image is accepted exactly when it is the written form of a well-formed transaction,
// and then as that transaction.
pub fn read_image(image: &[u8]) -> Result<Transaction, ReadFault>
    ensures { ReadExactly image.now (told_by result) }
{
    let mut reader = Reader::new(image);
    reader.transaction()
}
