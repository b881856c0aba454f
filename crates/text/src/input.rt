// The lines of an input, one after another.
ghost use Rattle.std.specs.Prelude.{◌≡◌, ◌<◌, ◌∷◌, length};
ghost use Rattle.std.specs.Iterator.{YieldsFirstRef, item_count};
ghost use Rattle.text.specs.Lines.{input_lines};

use crate::line::line_end;

// The lines of an input that are still to come. A line feed at the input's end begins no further line.
#[derive(Clone, Copy)]
pub struct InputLines<'a> {
    rest: &'a [u8],
}

impl<'a> InputLines<'a> {
    ghost use Rattle.text.specs.Input.{lines_left};

    pub fn new(input: &'a [u8]) -> InputLines<'a>
        ensures { lines_left result ≡ input_lines input.now }
    {
        InputLines { rest: input }
    }
}

impl<'a> Iterator for InputLines<'a> {
    ghost use Rattle.text.specs.Input.{lines_left};

    type Item = &'a [u8];

    ghost next_gives = { YieldsFirstRef lines_left };

    ghost remaining = { item_count lines_left };

    fn next(&mut self) -> Option<&'a [u8]> {
        if self.rest.is_empty() {
            return None;
        }
        let (line, rest) = cut_line(self.rest);
        self.rest = rest;
        Some(line)
    }
}

// The first line of an input, and what stands behind its line feed.
fn cut_line(input: &[u8]) -> (&[u8], &[u8])
    requires { 0 < length input.now }
    ensures { input_lines input.now ≡ result.0.now ∷ input_lines result.1.now }
{
    let (line, behind) = input.split_at(line_end(input, 0));
    match behind.split_first() {
        Some((_, rest)) => (line, rest),
        None => (line, behind),
    }
}
