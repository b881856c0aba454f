// The layer that chooses.
ghost use Rattle.std.specs.Prelude.{◌≡◌, cond};
ghost use Rattle.resolving.specs.Sameness.{decide};
ghost use Rattle.choice.specs.Choice.{taken_fork, choice_length, choice_takes, choice_ran};
ghost use Rattle.std.proofs.Common.{rules};

use atoms::Atom;
use resolving::{Fork, Packet, Predicate, Update};
use settings::{has_room, part, read_predicate, write_predicate};

// Tests a predicate and lets the atom below do one of two things; works in that atom's arithmetic.
#[derive(Clone, Copy)]
pub struct Choice<A>(pub A);

// An arm of a fork as an update, with the fork's condition decided: the first where it holds, else the second.
fn arm<'a>(update: &Update<'a>, f: Fork, holds: bool) -> Update<'a>
    ensures codelet { result.codelet.now ≡ update.now.codelet.now }
    ensures decided { result.decided ≡ decide update.now.decided f.condition holds }
    ensures source { result.source ≡ cond holds f.first f.second }
{
    Update {
        codelet: update.codelet,
        decided: update.decided.with(f.condition, holds),
        source: if holds { f.first } else { f.second },
    }
}

impl<A: Atom> Choice<A> {
    // The fork that an update is, where the atom below takes both its arms.
    fn taken_fork(&self, update: &Update) -> Option<Fork>
        ensures { result ≡ taken_fork A.Atom.takes update.now.codelet.now update.now.decided update.now.source }
    {
        let f = update.fork()?;
        let taken = self.0.class(&arm(update, f, true)) && self.0.class(&arm(update, f, false));
        taken.then_some(f)
    }
}

impl<A: Atom> Atom for Choice<A> {
    type Arith = A::Arith;

    ghost len = { choice_length A.Atom.len };

    ghost takes = { choice_takes A.Atom.takes };

    ghost ran = { choice_ran A.Atom.len A.Atom.ran };

    ghost lengths = { Prim.search rules };

    fn length(&self) -> u32 {
        self.0.length().saturating_mul(2).saturating_add(5)
    }

    #[tactic(auto, using(crate::proofs::Arms::choice_takes_lem))]
    fn class(&self, update: &Update) -> bool {
        self.0.class(update) || self.taken_fork(update).is_some()
    }

    fn fit(&self, update: &Update, buffer: &mut [u32]) -> bool {
        if !has_room(self.length(), buffer) {
            return self.class(update);
        }
        let n = self.0.length() as usize;
        if self.0.class(update) {
            write_predicate(Predicate::Always, buffer);
            self.0.fit(update, &mut buffer[5..5 + n]);
            return true;
        }
        let Some(f) = self.taken_fork(update) else {
            return false;
        };
        write_predicate(f.predicate, buffer);
        self.0.fit(&arm(update, f, true), &mut buffer[5..5 + n]);
        self.0
            .fit(&arm(update, f, false), &mut buffer[5 + n..5 + 2 * n]);
        true
    }

    fn run(&self, setting: &[u32], old: u32, packet: &Packet) -> u32 {
        let n = self.0.length() as usize;
        if read_predicate(setting).holds(old, packet) {
            self.0.run(part(setting, 5, n), old, packet)
        } else {
            self.0.run(part(setting, 5 + n, n), old, packet)
        }
    }
}
