// How an atom that does one operation is fitted to an update.
ghost use Rattle.std.specs.Prelude.{◌≡◌, ◌<◌, ◌≤◌, true, false, length, drop, MatchOption, Some};
ghost use Rattle.resolving.specs.Classes.{operation_of};
ghost use Rattle.resolving.specs.Leaves.{OperatesOnWord};
ghost use Rattle.settings.specs.Settings.{operation_from};

use resolving::{Operation, Update};
use settings::write_operation;

// Writes the operation that an update is, where it is one that the atom does, and answers whether it is.
pub(crate) fn fit_operation<F: Fn(Operation) -> bool>(
    update: &Update,
    buffer: &mut [u32],
    does: F,
) -> bool
    requires { F.IsAlwaysCallable does }
    ensures answer { MatchOption (operation_of update.now.codelet.now update.now.decided update.now.source) (result ≡ false) (λ o. F.post does o result) }
    ensures word { OperatesOnWord (operation_of update.now.codelet.now update.now.decided update.now.source) }
    ensures written { result ≡ true → 3 ≤ length buffer.old → operation_of update.now.codelet.now update.now.decided update.now.source ≡ Some (operation_from buffer.new) }
    ensures refused { result ≡ false → buffer.new ≡ buffer.old }
    ensures short { length buffer.old < 3 → buffer.new ≡ buffer.old }
    ensures rest { drop 3 buffer.new ≡ drop 3 buffer.old }
{
    match update.operation() {
        Some(operation) if does(operation) => {
            write_operation(operation, buffer);
            true
        }
        _ => false,
    }
}
