// Words in decimal.
ghost use Rattle.std.specs.Prelude.{◌≡◌};
ghost use Rattle.text.specs.Decimal.{decimal_step, decimal_words, extended};
ghost use Rattle.text.specs.Decoding.{Answers};
ghost use Rattle.text.specs.Theorem.{DecimalsReadBack, FirstFault, NumeralsRead};

use crate::decode::decode;
use crate::fault::TextFault;
use crate::notation::{Notation, digit, is_blank};
use crate::step::Step;

impl Notation for u32 {
    ghost stepped = { decimal_step };

    fn step(begun: Option<u32>, byte: u8) -> Step<u32>
        ensures { result ≡ decimal_step begun byte }
    {
        match (begun, digit(byte, 10)) {
            (None, Some(first)) => Step::Onward(Some(u32::from(first))),
            (Some(number), Some(next)) => extend(number, next),
            (None, None) if is_blank(byte) => Step::Onward(None),
            (Some(number), None) if is_blank(byte) => Step::Whole(number),
            _ => Step::Stuck,
        }
    }
}

// The number with one digit more, which may not pass the top word.
fn extend(number: u32, next: u8) -> Step<u32>
    ensures { result ≡ extended number next }
{
    match u32::try_from(u64::from(number) * 10 + u64::from(next)) {
        Ok(longer) => Step::Onward(Some(longer)),
        Err(_) => Step::Stuck,
    }
}

// The words that the line writes in decimal, in place of what the Vec held; at a fault it is left empty.
// Blanks, which are spaces, tabs and carriage returns, stand between two numbers, and may stand before and behind them.
pub fn decode_words(line: &[u8], words: &mut Vec<u32>) -> Result<(), TextFault>
    ensures answers { Answers (decimal_words line.now) result words.new.items }
    ensures reads_back { DecimalsReadBack }
    ensures numerals_read { NumeralsRead }
    ensures first_fault { FirstFault decimal_words }
{
    decode(line, words)
}
