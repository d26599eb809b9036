ghost use Rattle.std.specs.Prelude.{◌≡◌};
ghost use Rattle.us_model.specs.Refusals.{number_of};

/// Why a request is refused, or an open.
#[derive(Clone, Copy, Debug, PartialEq, Eq)]
pub enum Refusal {
    /// The frame is no request, or has a bad length.
    Malformed,
    /// No transaction runs.
    NoTransaction,
    /// A transaction runs.
    InTransaction,
    /// The item's space isn't configured.
    UnknownSpace,
    /// The operation isn't of the space's kind.
    OtherKind,
    /// The transaction has as many operations as it may have.
    TooManyOperations,
    /// The transaction's writes would be too long.
    WritesTooLong,
    /// The operation's answer is too long.
    AnswerTooLong,
    /// As many requests of the session are unanswered as may be.
    TooManyRequests,
    /// As many sessions of the site are open as may be.
    TooManySessions,
}

impl Refusal {
    /// The number that a reply tells of it.
    pub fn number(self) -> u8
        ensures { result ≡ number_of self }
    {
        match self {
            Refusal::Malformed => 1,
            Refusal::NoTransaction => 2,
            Refusal::InTransaction => 3,
            Refusal::UnknownSpace => 4,
            Refusal::OtherKind => 5,
            Refusal::TooManyOperations => 6,
            Refusal::WritesTooLong => 7,
            Refusal::AnswerTooLong => 8,
            Refusal::TooManyRequests => 9,
            Refusal::TooManySessions => 11,
        }
    }
}
