// The limits of a pipeline.
ghost use Rattle.std.specs.Prelude.{◌≡◌, ◌≤◌, if◌then◌else◌, IfOk};
ghost use Rattle.stages.specs.Limits.{fault_of, ranged, first_out};

use crate::fault::LimitFault;

// What a pipeline has room for. Every value of this type is in range.
#[derive(Clone, Copy)]
pub struct Limits {
    // D: how many stages there are
    pub stages: usize,
    // P: how many lines and echoes, taken together, a stage has room for
    pub lines: usize,
    // Q: how many atoms a stage has room for
    pub atoms: usize,
    ghost some_stage: { 1 ≤ stages },
    ghost few_stages: { stages ≤ 32 },
    ghost some_line: { 1 ≤ lines },
    ghost few_lines: { lines ≤ 16 },
    ghost some_atom: { 1 ≤ atoms },
    ghost few_atoms: { atoms ≤ 8 },
}

// The number, where it is from 1 to the top, or else the fault.
fn in_range(n: u32, top: u32, fault: LimitFault) -> Result<usize, LimitFault>
    ensures { result ≡ (if ranged top n then Ok n else Err fault) }
{
    if (1..=top).contains(&n) {
        Ok(n as usize)
    } else {
        Err(fault)
    }
}

impl Limits {
    // The limits of these three numbers, or which of them is the first out of its range.
    pub fn new(d: u32, p: u32, q: u32) -> Result<Limits, LimitFault>
        ensures answer { fault_of result ≡ first_out d p q }
        ensures kept { IfOk result (λ l. (l.stages ≡ d) × (l.lines ≡ p) × (l.atoms ≡ q)) }
    {
        let stages = in_range(d, 32, LimitFault::Stages)?;
        let lines = in_range(p, 16, LimitFault::Lines)?;
        let atoms = in_range(q, 8, LimitFault::Atoms)?;
        Ok(Limits {
            stages,
            lines,
            atoms,
        })
    }
}
