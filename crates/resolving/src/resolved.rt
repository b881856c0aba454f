// Resolving.
ghost use Rattle.std.specs.Prelude.{◌≡◌};
ghost use Rattle.resolving.specs.Codelets.{line_at, is_inner, inner_line};
ghost use Rattle.resolving.specs.Resolving.{found, resolved_line, table, Resolves, Only, KeepsValues};

use crate::codelet::Codelet;
use crate::decided::Decided;
use lines::{Line, Source};
use word::at;

// What each line resolves to.
#[derive(Clone, Copy)]
pub struct Resolved {
    pub sources: [Source; 208],
}

// What a table of the lower lines has for a source.
fn find(lower: &[Source], a: Source) -> Source
    ensures { result ≡ found lower.now a }
{
    match a {
        Source::Line(n) => at(lower, n as usize, a),
        Source::Field(_) | Source::Constant(_) => a,
    }
}

impl Resolved {
    // What a source resolves to.
    pub fn of(&self, a: Source) -> Source
        ensures { result ≡ found self.now.sources a }
    {
        find(&self.sources, a)
    }
}

impl Codelet {
    // Line n.
    pub fn line(&self, n: u8) -> Line
        ensures { result ≡ line_at self.now n }
    {
        at(&self.lines, n as usize, Line::Read(0))
    }

    // Whether line n is an inner line.
    pub fn is_inner(&self, n: u8) -> bool
        ensures { result ≡ is_inner self.now n }
    {
        at(&self.inner, n as usize, false)
    }

    // The line that makes a source, where that is an inner line.
    pub fn inner_line(&self, a: Source) -> Option<Line>
        ensures { result ≡ inner_line self.now a }
    {
        match a {
            Source::Line(n) if self.is_inner(n) => Some(self.line(n)),
            _ => None,
        }
    }

    // What line n resolves to, given what the lower lines do.
    fn resolve_line(&self, decided: &Decided, lower: &[Source], n: u8) -> Source
        ensures { result ≡ resolved_line self.now decided.now lower.now n }
    {
        let itself = Source::Line(n);
        match self.inner_line(itself) {
            Some(Line::Copy(a)) => find(lower, a),
            Some(Line::Choose(c, a, b)) => match decided.of(find(lower, c)) {
                Some(true) => find(lower, a),
                Some(false) => find(lower, b),
                None => itself,
            },
            _ => itself,
        }
    }

    // Resolves every line, from the first up.
    pub fn resolve(&self, decided: &Decided) -> Resolved
        ensures table { result.sources ≡ table self.now decided.now 208 }
        ensures rules { Resolves self.now decided.now (found result.sources) }
        ensures only { Only self.now decided.now (found result.sources) }
        ensures keeps { KeepsValues self.now decided.now (found result.sources) }
    {
        let mut sources = [Source::Constant(0); 208];
        // a loop: each entry reads the entries before it, which no chain hands on
        for n in 0..208 {
            let source = self.resolve_line(decided, &sources[..n], n as u8);
            sources[n] = source;
        }
        Resolved { sources }
    }
}
