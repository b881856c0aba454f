// What seeking comes to.
ghost use Rattle.schedule.specs.Seek.{SeekFinds, FirstTells};

// Seeking from n finds a node of the stage, unless there is none, and there is none between; the first node from n on is what
// seeking finds.
pub fn seek_finds_the_least()
    ensures finds { SeekFinds }
    ensures tells { FirstTells }
{}
