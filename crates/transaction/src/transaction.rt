// A well-formed transaction.
ghost use Rattle.std.specs.Prelude.{◌≡◌, ◌≤◌, true, [], length, take};
ghost use Rattle.transaction.specs.WellFormed.{within, nested};

use crate::statement::Statement;

// What an image says: the counts and the first `count` statements of the table; the rest of the table has no meaning.
// Every value of this type is well formed.
// A plain table and its count: libraries use no heap, and a transaction is copied like a number, which no list can be.
#[derive(Clone, Copy)]
pub struct Transaction {
    pub fields: u8,
    pub states: u8,
    pub count: u8,
    pub statements: [Statement; 48],
    ghost some_field: { 1 ≤ fields },
    ghost few_fields: { fields ≤ 16 },
    ghost few_states: { states ≤ 8 },
    ghost few_statements: { count ≤ 48 },
    ghost long: { length statements ≡ 48 },
    // each statement names only fields and states that are there, and words
    ghost in_place: { within fields states (take count statements) ≡ true },
    // ifs nest at most 3 deep, each has at most one else, and each is closed
    ghost well_nested: { nested [] (take count statements) ≡ true },
}
