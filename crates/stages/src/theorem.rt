// What the rule of stages gives on examples.
ghost use Rattle.stages.specs.Worked.{Worked};

// The stages of two small plans, computed from the rule.
pub fn worked_examples()
    ensures { Worked }
{}
