ghost use Rattle.std.specs.Prelude.{◌≡◌};
ghost use Rattle.unistore.specs.Status.{reason_text, limit_text, status_number};

use us_config::{ConfigFault, Key};

/// Why an input is refused.
#[derive(Clone, Copy, Debug, PartialEq, Eq, Hash)]
pub enum Reason {
    /// No line is `---`.
    NoSeparator,
    /// The configuration is at fault at this key.
    Config { key: Key, fault: ConfigFault },
    /// No line has this name with this number of words behind it.
    BadWord,
    /// A number is not decimal digits without a leading zero, or is above 2^64 - 1.
    BadNumber,
    /// The hex has an odd number of digits, or another character.
    BadHex,
    /// A value is out of its range.
    OutOfRange,
    /// The line is none that this store performs yet.
    NotBuilt,
}

impl Reason {
    /// The reason's name, as it is printed of a line.
    pub fn word(self) -> &'static str
        ensures { result.now ≡ reason_text self }
    {
        match self {
            Reason::NoSeparator => "NoSeparator",
            Reason::Config { .. } => "Config",
            Reason::BadWord => "BadWord",
            Reason::BadNumber => "BadNumber",
            Reason::BadHex => "BadHex",
            Reason::OutOfRange => "OutOfRange",
            Reason::NotBuilt => "NotBuilt",
        }
    }
}

/// Which limit was passed.
#[derive(Clone, Copy, Debug, PartialEq, Eq, Hash)]
pub enum LimitKind {
    /// 2^28 bytes of input.
    Text,
    /// 1,000,000 events.
    Events,
    /// 512 opened sessions.
    Sessions,
    /// 20,000 begun transactions.
    Transactions,
}

impl LimitKind {
    /// The limit as it is printed.
    pub fn word(self) -> &'static str
        ensures { result.now ≡ limit_text self }
    {
        match self {
            LimitKind::Text => "text",
            LimitKind::Events => "events",
            LimitKind::Sessions => "sessions",
            LimitKind::Transactions => "transactions",
        }
    }
}

/// How a call ended.
#[derive(Clone, Copy, Debug, PartialEq, Eq, Hash)]
pub enum Status {
    /// The input was read to its end and the report was written.
    Done,
    /// The words are none of the forms.
    Words,
    /// The input is refused at a line, counted from 1, or at 0 for its configuration.
    Input { line: u64, reason: Reason },
    /// A read failed, and the source counted it.
    ReadFault,
    /// A write failed, and the sink counted it. A prefix of the text was written.
    WriteFault,
    /// The links did not start, and counted it.
    LinkFault,
    /// Want of memory.
    Memory,
    /// A limit was passed at a line, counted from 1, or 0 where it is no line's.
    Limit { which: LimitKind, line: u64 },
}

impl Status {
    /// The exit status of the program.
    pub fn number(&self) -> u8
        ensures { result ≡ status_number self.now }
    {
        match self {
            Status::Done => 0,
            Status::Words => 2,
            Status::Input { .. } => 3,
            Status::ReadFault => 4,
            Status::WriteFault => 5,
            Status::LinkFault => 6,
            Status::Memory => 7,
            Status::Limit { .. } => 8,
        }
    }
}
