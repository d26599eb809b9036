//! Laws of the definitions that the contracts cite: each is a function whose contract says it.
ghost use Rattle.std.specs.Int.{w8, w16, w32, w64, w128};
ghost use Rattle.us_wire.specs.Fields.{ReadsIntegers, ReadsNumbers, ReadsValues};
ghost use Rattle.us_wire.specs.Decoders.{ReadsBetween};
ghost use Rattle.us_wire.specs.Runs.{PiecesDoNotMatter, StreamsHaveFrames};

/// Each stream is its whole frames and a rest that begins with none, in one way.
pub fn streams_have_frames()
    ensures { StreamsHaveFrames }
{}

/// However a stream is cut into pieces, and whenever frames are asked for, the frames that are given are the first of
/// the whole stream, and all of them where none is left; a bad length field is answered for good.
pub fn pieces_do_not_matter()
    ensures { PiecesDoNotMatter }
{}

/// What is read as a field is encoded so, and what is encoded so is read, whatever follows it.
pub fn fields_are_read_as_encoded()
    ensures bytes { ReadsNumbers w8 }
    ensures pairs { ReadsNumbers w16 }
    ensures fours { ReadsNumbers w32 }
    ensures eights { ReadsNumbers w64 }
    ensures signed_eights { ReadsIntegers w64 }
    ensures signed_sixteens { ReadsIntegers w128 }
    ensures values { ReadsValues }
{}

/// A number within bounds is read as it is encoded; none is read where none within the bounds stands.
pub fn bounded_numbers_are_read_as_encoded()
    ensures bytes { ReadsBetween w8 }
    ensures eights { ReadsBetween w64 }
{}
