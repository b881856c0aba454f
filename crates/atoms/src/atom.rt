// What an atom kind is.
ghost use Rattle.std.specs.Prelude.{◌≡◌, ℕ, Bool, true, false, List, drop};
ghost use Rattle.word.specs.Words.{Word};
ghost use Rattle.lines.specs.declared.line.Source.{Source};
ghost use Rattle.resolving.specs.declared.codelet.Codelet.{Codelet};
ghost use Rattle.resolving.specs.declared.decided.Decided.{Decided};
ghost use Rattle.resolving.specs.declared.packet.Packet.{Packet};
ghost use Rattle.atoms.specs.Rightness.{Right};
ghost use Rattle.settings.specs.Settings.{has_room};

use resolving::{Packet, Update};
use word::Arithmetic;

// An atom kind is known by its class, its fit and its run. A setting is the list of numbers that tells an atom of this
// kind what to do.
pub trait Atom {
    // the arithmetic that the atom works in
    type Arith: Arithmetic;

    // how many numbers a setting has; a length past the top word counts as the top word
    ghost len: { ℕ };

    // which updates the atom can do, under decided conditions
    ghost takes: { Codelet → Decided → Source → Bool };

    // what a setting makes of the old word and a packet
    ghost ran: { List ℕ → ℕ → Packet → ℕ };

    fn length(&self) -> u32
        ensures { result ≡ len };

    // Whether the atom can do an update.
    fn class(&self, update: &Update) -> bool
        ensures { result ≡ takes update.now.codelet.now update.now.decided update.now.source };

    // Answers as class does, and with a yes writes a setting into the first numbers of the buffer. A buffer that is too
    // short for a setting stays as it was. A yes or no and the caller's buffer, and no Option of a setting: the settings of an
    // atom's type have no one length, and libraries use no heap.
    fn fit(&self, update: &Update, buffer: &mut [u32]) -> bool
        ensures answer { result ≡ takes update.now.codelet.now update.now.decided update.now.source }
        ensures right { result ≡ true → has_room len buffer.old ≡ true → Right Self.Arith.Arithmetic.plus Self.Arith.Arithmetic.minus ran update.now.codelet.now update.now.decided update.now.source buffer.new }
        ensures refused { result ≡ false → buffer.new ≡ buffer.old }
        ensures short { has_room len buffer.old ≡ false → buffer.new ≡ buffer.old }
        ensures rest { drop len buffer.new ≡ drop len buffer.old };

    // The new word, for any numbers in the setting. A setting, a word and a packet stay three arguments: a struct would be
    // made anew for each run.
    fn run(&self, setting: &[u32], old: u32, packet: &Packet) -> u32
        ensures { result ≡ ran setting.now old packet.now };

    ghost lengths: { Word len };
}
