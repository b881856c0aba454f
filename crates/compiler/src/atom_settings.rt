// The settings of a transaction's atoms.
ghost use Rattle.std.specs.Prelude.{◌≡◌, ◌<◌, ◌≤◌, false, Some, None, Ok, Err};
ghost use Rattle.updates.specs.Inner.{update_of};
ghost use Rattle.plans.specs.Updates.{codelet_of};
ghost use Rattle.compiler.specs.Settings.{Short, Fitted, Set};

use crate::fault::AtomFault;
use atoms::Atom;
use codelets::Codelets;
use resolving::{Decided, Update};
use updates::{codelet_of, update_of};
use word::at;

// An atom whose setting goes into 64 numbers.
#[derive(Drop)]
pub struct Fitter<'a, A: Atom> {
    atom: &'a A,
    ghost short: { A.Atom.len ≤ 64 },
}

impl<'a, A: Atom> Fitter<'a, A> {
    // The atom, or how many numbers its setting has, where they are too many.
    pub fn of(atom: &'a A) -> Result<Fitter<'a, A>, AtomFault>
        ensures { Short A.Atom.len result }
    {
        let length = atom.length();
        if length > 64 {
            return Err(AtomFault::Setting(length));
        }
        Ok(Fitter { atom })
    }

    // A setting for state s's update, where that is in the atom's class.
    fn setting_of(&self, codelets: &Codelets, s: usize) -> Option<[u32; 64]>
        ensures { Fitted A.Arith.Arithmetic.plus A.Arith.Arithmetic.minus A.Atom.takes A.Atom.ran codelets.now.lines s result }
    {
        let codelet = codelet_of(codelets, s);
        let update = Update {
            codelet: &codelet,
            decided: Decided::none(),
            source: update_of(codelets, s),
        };
        let mut setting = [0; 64];
        self.atom.fit(&update, &mut setting).then_some(setting)
    }

    // For each named state its setting; refused with the smallest state whose update is outside the atom's class.
    pub fn settings_of(&self, codelets: &Codelets) -> Result<[[u32; 64]; 8], AtomFault>
        ensures { Set A.Arith.Arithmetic.plus A.Arith.Arithmetic.minus A.Atom.takes A.Atom.ran codelets.now.lines result }
    {
        let mut settings = [[0; 64]; 8];
        for (s, setting) in settings.iter_mut().enumerate() {
            if at(&codelets.lines.named, s, false) {
                *setting = self.setting_of(codelets, s).ok_or(AtomFault::Update(s))?;
            }
        }
        Ok(settings)
    }
}
