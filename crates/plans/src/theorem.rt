// What plans come to.
ghost use Rattle.plans.specs.Sound.{SoundPlansRight};

// A pipeline that carries out a sound plan is right for the plan's transaction, under every arithmetic and whatever the atoms are.
pub fn sound_plans_are_right()
    ensures { SoundPlansRight }
{}
