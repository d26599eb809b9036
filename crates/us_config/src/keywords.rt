ghost use Rattle.std.specs.Prelude.{◌≡◌};
ghost use Rattle.us_config.specs.Keywords.{kind_of_word, class_of_word};

use us_value::{Class, Kind};

/// The kind that a word names.
pub fn kind_named(word: &str) -> Option<Kind>
    ensures { result ≡ kind_of_word word.now }
{
    match word {
        "register" => Some(Kind::Register),
        "counter" => Some(Kind::Counter),
        "set" => Some(Kind::Set),
        "flag" => Some(Kind::Flag),
        "multi" => Some(Kind::Multi),
        _ => None,
    }
}

/// The class of operations that a word names.
pub fn class_named(word: &str) -> Option<Class>
    ensures { result ≡ class_of_word word.now }
{
    match word {
        "read" => Some(Class::Read),
        "write" => Some(Class::Write),
        "give" => Some(Class::Give),
        "take" => Some(Class::Take),
        "add" => Some(Class::Add),
        "remove" => Some(Class::Remove),
        "enable" => Some(Class::Enable),
        "disable" => Some(Class::Disable),
        _ => None,
    }
}
