// What can be seen of a machine without a call.
ghost use Rattle.std.specs.Prelude.{◌≡◌};
ghost use Rattle.book.specs.Pipeline.{packet_at};
ghost use Rattle.plans.specs.Pipeline.{shape_of};
ghost use Rattle.machine.specs.Held.{contents};

use crate::machine::Machine;
use word::at;

impl<A> Machine<A> {
    // How many stages there are; the exit is the place behind the last.
    pub fn depth(&self) -> usize
        ensures { result ≡ (shape_of self.now.plan).depth }
    {
        self.plan.placement.stages.count
    }

    // How many fields a packet has.
    pub fn fields(&self) -> usize
        ensures { result ≡ (shape_of self.now.plan).width }
    {
        self.plan.transaction.fields as usize
    }

    // The number of the packet at a place, if one is there.
    pub fn packet_at(&self, place: usize) -> Option<u32>
        ensures { result ≡ packet_at (contents self.now) place }
    {
        at(&self.held.places, place, None)
    }
}
