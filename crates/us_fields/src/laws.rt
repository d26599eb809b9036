//! Decoding and encoding are inverse to each other.
ghost use Rattle.us_fields.specs.Lengths.{AnswersAreAsLong, WritesAreAsLong};
ghost use Rattle.us_fields.specs.Laws.{ReadsItems, ReadsOps, ReadsAnswers, ReadsEffects, ReadsWrites};

/// Items, operations, answers, effects and lists of writes are read as they are encoded, whatever follows.
pub fn fields_are_read_as_encoded()
    ensures items { ReadsItems }
    ensures operations { ReadsOps }
    ensures answers { ReadsAnswers }
    ensures effects { ReadsEffects }
    ensures writes { ReadsWrites }
{}

/// The length that is said of an answer is that of its encoding.
pub fn answers_are_as_long()
    ensures { AnswersAreAsLong }
{}

/// The length that is said of a write is that of its encoding.
pub fn writes_are_as_long()
    ensures { WritesAreAsLong }
{}
