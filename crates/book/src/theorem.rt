// What the serial book and the serial run come to.
ghost use Rattle.std.specs.Prelude.{ℕ, List};
ghost use Rattle.meaning.specs.Serial.{Values};
ghost use Rattle.resolving.specs.declared.packet.Packet.{Packet};
ghost use Rattle.book.specs.Pipeline.{Pipeline};
ghost use Rattle.book.specs.Right.{Right};
ghost use Rattle.book.specs.Theorem.{EachCall, EveryRun, WordsToWords, KeepsWords};

// On a right pipeline, whether a packet carries a list of values or a row of fields and lines, each call on a machine that agrees with a book gets the book's answer, and they agree after it.
pub fn each_call_agrees_with_the_book()
    ensures values { (P : Pipeline (List ℕ)) (one : Values → Values) → Right P one → EachCall P one }
    ensures rows { (P : Pipeline Packet) (one : Values → Values) → Right P one → EachCall P one }
{}

// On a right pipeline, whether a packet carries a list of values or a row of fields and lines, any list of calls on a machine at its start gets the book's answers and keeps the laws of the run.
pub fn every_run_agrees_with_the_book()
    ensures values { (P : Pipeline (List ℕ)) (one : Values → Values) → Right P one → EveryRun P one }
    ensures rows { (P : Pipeline Packet) (one : Values → Values) → Right P one → EveryRun P one }
{}

// Under an arithmetic that makes words of words, a packet run alone leaves words where it meets words.
pub fn alone_keeps_words()
    ensures { (plus minus : ℕ → ℕ → ℕ) → WordsToWords plus → WordsToWords minus → KeepsWords plus minus }
{}
