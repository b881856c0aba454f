// Bytes in hexadecimal.
ghost use Rattle.std.specs.Prelude.{◌≡◌};
ghost use Rattle.text.specs.Decoding.{Answers};
ghost use Rattle.text.specs.Hexadecimal.{hexadecimal, hex_step};
ghost use Rattle.text.specs.Theorem.{FirstFault, HexReadsBack, PairsRead};

use crate::decode::decode;
use crate::fault::TextFault;
use crate::notation::{Notation, digit, is_blank};
use crate::step::Step;

impl Notation for u8 {
    ghost stepped = { hex_step };

    fn step(begun: Option<u8>, byte: u8) -> Step<u8>
        ensures { result ≡ hex_step begun byte }
    {
        match (begun, digit(byte, 16)) {
            (None, Some(high)) => Step::Onward(Some(high << 4)),
            (Some(high), Some(low)) => Step::Whole(high | low),
            (None, None) if is_blank(byte) => Step::Onward(None),
            _ => Step::Stuck,
        }
    }
}

// The bytes that the line writes, as two digits each, in place of what the Vec held; at a fault it is left empty.
// The digits are in either case, and blanks, which are spaces, tabs and carriage returns, may stand before, between and behind the pairs.
pub fn decode_hex(line: &[u8], bytes: &mut Vec<u8>) -> Result<(), TextFault>
    ensures answers { Answers (hexadecimal line.now) result bytes.new.items }
    ensures reads_back { HexReadsBack }
    ensures pairs_read { PairsRead }
    ensures first_fault { FirstFault hexadecimal }
{
    decode(line, bytes)
}
