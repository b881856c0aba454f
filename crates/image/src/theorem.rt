// What the reading of an image comes to.
ghost use Rattle.image.specs.Theorem.{AcceptsWritten};

// An image is accepted exactly when it is the written form of a well-formed transaction.
pub fn accepts_written()
    ensures { AcceptsWritten }
{}
