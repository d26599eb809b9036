//! Laws of the definitions that the contracts cite: each is a function whose contract says it.
ghost use Rattle.us_migrate.specs.Decoders.{ReadsTids, ReadsVectors, ReadsTokens};

/// What is read at a place is encoded there and has an encoding in a store of the shape; what is encoded there is read,
/// whatever follows; and nothing is read only where no encoding stands.
pub fn fields_are_read_as_encoded()
    ensures tids { ReadsTids }
    ensures vectors { ReadsVectors }
    ensures tokens { ReadsTokens }
{}
