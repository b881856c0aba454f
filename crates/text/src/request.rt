// Lines that write an image and the numbers that go with it.
ghost use Rattle.text.specs.Decoding.{Answers};
ghost use Rattle.text.specs.Hexadecimal.{hexadecimal};
ghost use Rattle.text.specs.Request.{Requests, image_digits};

use crate::decimal::decode_words;
use crate::fault::TextFault;
use crate::hexadecimal::decode_hex;
use crate::line::word_end;

// The bytes that a word writes in hexadecimal; `-` writes none.
fn decode_image(word: &[u8], image: &mut Vec<u8>) -> Result<(), TextFault>
    ensures { Answers (hexadecimal (image_digits word.now)) result image.new.items }
{
    match word {
        [b'-'] => decode_hex(&[], image),
        _ => decode_hex(word, image),
    }
}

// The image that a line's first word writes in hexadecimal, of no bytes where it is `-`, and the numbers behind it.
pub fn decode_request(
    line: &[u8],
    image: &mut Vec<u8>,
    numbers: &mut Vec<u32>,
) -> Result<(), TextFault>
    ensures { Requests line.now result image.new.items numbers.new.items }
{
    let (word, rest) = line.split_at(word_end(line));
    decode_image(word, image)?;
    decode_words(rest, numbers).map_err(|fault| fault.behind(word.len()))
}
