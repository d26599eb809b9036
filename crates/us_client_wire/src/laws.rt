//! Decoding and encoding are inverse to each other.
ghost use Rattle.us_client_wire.specs.Laws.{ReadsRequests, ReadsReplies};

/// A frame that is read is the encoding of what was read, the encoding of a request is read as that request, and no
/// encoding of a request begins another.
pub fn requests_are_read_as_encoded()
    ensures { ReadsRequests }
{}

/// The same of replies.
pub fn replies_are_read_as_encoded()
    ensures { ReadsReplies }
{}
