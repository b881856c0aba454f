// What stands behind the definitions.
ghost use Rattle.rows.specs.Sorts.{SortsStand};
ghost use Rattle.rows.specs.Makers.{MakersStand};
ghost use Rattle.rows.specs.Rows.{RowsStand};
ghost use Rattle.rows.specs.Samples.{SamplesStand};

// The nodes are the outside lines, the echoes and an atom for each named state; what a node reads a node makes.
pub fn nodes_and_makers()
    ensures nodes { SortsStand }
    ensures makers { MakersStand }
{}

// Rows exist and are unique, and what a node reads is made by a node of a lower row.
pub fn rows_follow_their_rule()
    ensures { RowsStand }
{}

// Worked examples: the sampling transaction's codelet, echo and rows; a chain of two states; two states in one codelet.
pub fn samples_stand()
    ensures { SamplesStand }
{}
