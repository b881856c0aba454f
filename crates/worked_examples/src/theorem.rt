// What the definitions say of a few transactions, worked out.
ghost use Rattle.worked_examples.specs.Worked.{WorkedExamples};

// Sampling, two chained states, two crossed states, a countdown and the empty transaction.
pub fn worked_examples()
    ensures { WorkedExamples }
{}
