//! Which sessions may have something to do when the coordinator runs.
ghost use Rattle.std.specs.Prelude.{◌≡◌};
ghost use Rattle.us_coord.specs.Marks.{marking};

/// The sessions that may have something to do.
#[derive(Clone, Copy, PartialEq, Eq)]
pub enum Marked {
    Nobody,
    /// The session of this number.
    One { number: u64 },
    All,
}

impl Marked {
    /// The session of this number too.
    pub fn marking(self, session: u64) -> Marked
        ensures { result ≡ marking self session }
    {
        match self {
            Marked::Nobody => Marked::One { number: session },
            Marked::One { number } if number == session => self,
            _ => Marked::All,
        }
    }
}
