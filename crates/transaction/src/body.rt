// What a transaction says.
ghost use Rattle.std.specs.Prelude.{◌≡◌};
ghost use Rattle.transaction.specs.Programs.{statements_of};

use crate::statement::Statement;
use crate::transaction::Transaction;

impl Transaction {
    // The statements that have a meaning, in written order.
    pub fn body(&self) -> &[Statement]
        ensures { result.now ≡ statements_of self.now }
    {
        &self.statements[..self.count as usize]
    }
}
