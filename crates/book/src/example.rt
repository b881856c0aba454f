// A worked example.
ghost use Rattle.std.specs.Prelude.{◌≡◌, [], slice_index_or};
ghost use Rattle.image.specs.Reading.Answer.{good};
ghost use Rattle.book.specs.Calls.Outcome.{done, word};
ghost use Rattle.book.specs.Book.{answers};
ghost use Rattle.book.specs.Right.{Right};
ghost use Rattle.book.specs.Example.{summed, two_stages, summing_pipeline, calls, told};

// Two packets that sum up a field: what the book answers to each call, and that a pipeline of two stages is right for them.
// Tells the sum that the last peek shows when both packets have passed.
pub fn two_packets_summed() -> u8
    ensures book { answers two_stages summed calls [] ≡ told }
    ensures right { Right summing_pipeline summed }
    ensures sum { slice_index_or (answers two_stages summed calls []) 14 (good done) ≡ good (word result 2) }
{
    12
}
