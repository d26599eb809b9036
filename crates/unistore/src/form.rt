ghost use Rattle.std.specs.Prelude.{◌≡◌, map, string_bytes};
ghost use Rattle.unistore.specs.Answers.{form_of, is_short};

/// What the words of a call ask for.
#[derive(Clone, Copy, Debug, PartialEq, Eq)]
pub enum Form {
    /// The report of a schedule, or with `short` its last line alone.
    Replay { short: bool },
}

impl Form {
    /// Whether only the last line of the report is asked for.
    pub fn is_short(self) -> bool
        ensures { result ≡ is_short self }
    {
        match self {
            Form::Replay { short } => short,
        }
    }
}

/// The form that the words have, if any.
pub fn form_of(words: &[String]) -> Option<Form>
    ensures { result ≡ form_of (map string_bytes words.now) }
{
    match words {
        [word] if word.as_str() == "replay" => Some(Form::Replay { short: false }),
        [word, extent] if word.as_str() == "replay" && extent.as_str() == "short" => {
            Some(Form::Replay { short: true })
        }
        _ => None,
    }
}
