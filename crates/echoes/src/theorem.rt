// What stands behind the definitions.
ghost use Rattle.echoes.specs.Echoes.{EchoesLeast};

// The computed echoes are exactly the least set that the three rules give.
pub fn echoes_are_least()
    ensures { EchoesLeast }
{}
