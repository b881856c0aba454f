// Starting a machine.
ghost use Rattle.std.specs.Prelude.{◌≡◌, [], ◌∷◌};
ghost use Rattle.transaction.specs.Programs.{program_of};
ghost use Rattle.image.specs.Reading.{good, image_says};
ghost use Rattle.book.specs.Agrees.{Fresh};
ghost use Rattle.book.specs.Run.{one_alone};
ghost use Rattle.book.specs.Right.{Right};
ghost use Rattle.compiler.specs.Verdict.{Verdict};
ghost use Rattle.plans.specs.Idle.{idle_program};
ghost use Rattle.plans.specs.Pipeline.{shape_of, pipeline_of};
ghost use Rattle.machine.specs.Held.{contents};
ghost use Rattle.machine.specs.Started.{begun, Started};

use crate::fault::StartFault;
use crate::held::Held;
use crate::machine::Machine;
use atoms::Atom;
use compiler::compile;
use plans::{Plan, idle_plan};
use schedule::Schedule;

impl<A: Atom> Machine<A> {
    // A machine at its start: empty places, no packet counted, zeroed words.
    fn of_plan(atom: A, plan: Plan) -> Machine<A>
        ensures fresh { Fresh (pipeline_of A.Arith.Arithmetic.plus A.Arith.Arithmetic.minus A.Atom.ran plan) (contents result) }
        ensures plan { result.plan ≡ plan }
        ensures atom { result.atom ≡ atom }
    {
        let schedule = Schedule::of(&plan.placement.stages);
        Machine {
            atom,
            plan,
            schedule,
            held: Held::empty(),
        }
    }

    // A machine that was never started: that of a transaction of one field that does nothing.
    pub fn new(atom: A) -> Machine<A>
        ensures fresh { Fresh (pipeline_of A.Arith.Arithmetic.plus A.Arith.Arithmetic.minus A.Atom.ran result.plan) (contents result) }
        ensures right { Right (pipeline_of A.Arith.Arithmetic.plus A.Arith.Arithmetic.minus A.Atom.ran result.plan) (one_alone A.Arith.Arithmetic.plus A.Arith.Arithmetic.minus idle_program) }
        ensures program { program_of result.plan.transaction ≡ idle_program }
        ensures image { image_says (1 ∷ 1 ∷ 0 ∷ 0 ∷ []) ≡ good (program_of result.plan.transaction) }
        ensures depth { (shape_of result.plan).depth ≡ 1 }
        ensures atom { result.atom ≡ atom }
    {
        Machine::of_plan(atom, idle_plan())
    }

    // Empties the places, zeroes words and counts, and goes on with another plan.
    fn load(&mut self, plan: Plan)
        ensures fresh { Fresh (pipeline_of A.Arith.Arithmetic.plus A.Arith.Arithmetic.minus A.Atom.ran plan) (contents self.new) }
        ensures plan { self.new.plan ≡ plan }
        ensures atom { self.new.atom ≡ self.old.atom }
        ensures rows { self.new.held.rows ≡ self.old.held.rows }
    {
        self.schedule = Schedule::of(&plan.placement.stages);
        self.plan = plan;
        self.held.clear();
    }

    // Compiles an image and starts on its plan; a machine that was refused goes on as it was. The rows that packets left
    // behind are not cleared. The limits come unchecked, as `compile` takes them.
    pub fn start(&mut self, image: &[u8], d: u32, p: u32, q: u32) -> Result<(), StartFault>
        ensures verdict { Verdict A.Atom.len A.Atom.takes image.now d p q (begun result self.new) }
        ensures started { Started A.Arith.Arithmetic.plus A.Arith.Arithmetic.minus A.Atom.ran image.now d p q result self.old self.new }
        ensures rows { self.new.held.rows ≡ self.old.held.rows }
    {
        let plan = compile(&self.atom, image, d, p, q)?;
        self.load(plan);
        Ok(())
    }
}
