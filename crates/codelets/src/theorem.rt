// What stands behind the definitions.
ghost use Rattle.codelets.specs.Codelets.{CodeletsByPaths, CrowdedByPaths, StatesJoined};

// What is computed of codelets is exactly what paths say, and a state's read and write lines are in its codelet.
pub fn codelets_by_paths()
    ensures codelets { CodeletsByPaths }
    ensures shared { CrowdedByPaths }
    ensures states { StatesJoined }
{}
