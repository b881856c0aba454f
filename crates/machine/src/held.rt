// What a machine holds.
ghost use Rattle.std.specs.Prelude.{◌≡◌, ℕ, List, length};

use resolving::Packet;

// By place, from the entry at 0 to the exit behind the last stage, the number of the packet there, if any, the row that it
// carries, and how many packets have reached the place; and by state its word. The tables are parallel, and not one table
// of places, since a packet's number is optional by place and the rows are moved as a plain table.
#[derive(Clone, Copy)]
pub struct Held {
    pub(crate) places: [Option<u32>; 33],
    pub(crate) rows: [Packet; 33],
    pub(crate) counts: [u32; 33],
    pub(crate) words: [u32; 8],
    ghost places_long: { length places ≡ 33 },
    ghost rows_long: { length rows ≡ 33 },
    ghost counts_long: { length counts ≡ 33 },
    ghost words_long: { length words ≡ 8 },
}

impl Held {
    ghost use Rattle.resolving.specs.declared.packet.Packet.{Packet as Row};
    ghost use Rattle.plans.specs.declared.plan.Plan.{Plan};
    ghost use Rattle.plans.specs.Pipeline.{pipeline_of};
    ghost use Rattle.book.specs.Agrees.{Fresh};
    ghost use Rattle.machine.specs.Held.{held_contents};

    // Empty places, no packet counted, zeroed words.
    pub(crate) fn empty() -> Held
        ensures { (plus minus : ℕ → ℕ → ℕ) (ran : List ℕ → ℕ → Row → ℕ) (plan : Plan) → Fresh (pipeline_of plus minus ran plan) (held_contents result) }
    {
        let blank = Packet {
            fields: [0; 16],
            lines: [0; 208],
        };
        Held {
            places: [None; 33],
            rows: [blank; 33],
            counts: [0; 33],
            words: [0; 8],
        }
    }

    // Empties the places, counts no packet and zeroes the words; the rows that packets left behind stay.
    pub(crate) fn clear(&mut self)
        ensures fresh { (plus minus : ℕ → ℕ → ℕ) (ran : List ℕ → ℕ → Row → ℕ) (plan : Plan) → Fresh (pipeline_of plus minus ran plan) (held_contents self.new) }
        ensures rows { self.new.rows ≡ self.old.rows }
    {
        self.places = [None; 33];
        self.counts = [0; 33];
        self.words = [0; 8];
    }
}
