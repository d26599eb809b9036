ghost use Rattle.std.specs.Prelude.{◌≡◌};
ghost use Rattle.us_report.specs.Text.{kind_text, strong_count, is_aborted, aborted_count};

use std::fmt;
use us_exec::{Entry, Execution, Loose, LooseEnd, SessionName};
use us_kind::{Bytes, Tid};
use us_value::{Answer, Item, Op};

/// A transaction, printed as three numbers with dots.
#[derive(Clone, Copy)]
pub struct TidText(pub Tid);

/// A session, printed as three numbers with dots.
#[derive(Clone, Copy)]
pub struct SessionText(pub SessionName);

/// Bytes, printed in hex.
#[derive(Clone, Copy)]
pub struct Hex<'a>(pub &'a [u8]);

/// An item, printed as its space and its id in hex.
#[derive(Clone, Copy)]
pub struct ItemText<'a>(pub &'a Item);

/// Values, printed in hex with commas between.
#[derive(Clone, Copy)]
pub struct ValuesText<'a>(pub &'a [Bytes]);

/// Values, printed in hex with a comma before each.
#[derive(Clone, Copy)]
pub struct OthersText<'a>(pub &'a [Bytes]);

/// An operation as it is printed.
#[derive(Clone, Copy)]
pub struct OpText<'a>(pub &'a Op);

/// An answer as it is printed.
#[derive(Clone, Copy)]
pub struct AnswerText<'a>(pub &'a Answer);

/// How a transaction stands that isn't committed, as it is printed.
#[derive(Clone, Copy)]
pub struct EndText<'a>(pub &'a LooseEnd);

/// How many transactions and links an execution has.
#[derive(Clone, Copy)]
pub struct CountsText<'a>(pub &'a Execution);

impl fmt::Display for TidText {
    ghost use Rattle.std.specs.Prelude.{Some};
    ghost use Rattle.us_report.specs.Text.{tid_text};

    ghost output = { λ a. Some (tid_text a.0) };

    #[tactic(auto, unfolding(crate::specs::Text::tid_text))]
    fn fmt<W: fmt::Write>(&self, f: &mut fmt::Formatter<W>) -> fmt::Result {
        write!(f, "{}.{}.{}", self.0.site, self.0.coord, self.0.seq)
    }
}

impl fmt::Display for SessionText {
    ghost use Rattle.std.specs.Prelude.{Some};
    ghost use Rattle.us_report.specs.Text.{session_text};

    ghost output = { λ a. Some (session_text a.0) };

    #[tactic(auto, unfolding(crate::specs::Text::session_text))]
    fn fmt<W: fmt::Write>(&self, f: &mut fmt::Formatter<W>) -> fmt::Result {
        write!(f, "{}.{}.{}", self.0.site, self.0.coord, self.0.number)
    }
}

impl fmt::Display for Hex<'_> {
    ghost use Rattle.std.specs.Prelude.{Some};
    ghost use Rattle.hex.specs.Hex.{encode_lower};

    ghost output = { λ a. Some (encode_lower a.0.now) };

    fn fmt<W: fmt::Write>(&self, f: &mut fmt::Formatter<W>) -> fmt::Result {
        for &byte in self.0 {
            write!(f, "{byte:02x}")?;
        }
        Ok(())
    }
}

impl fmt::Display for ItemText<'_> {
    ghost use Rattle.std.specs.Prelude.{Some};
    ghost use Rattle.us_report.specs.Text.{item_text};

    ghost output = { λ a. Some (item_text a.0.now) };

    fn fmt<W: fmt::Write>(&self, f: &mut fmt::Formatter<W>) -> fmt::Result {
        write!(f, "{}:{}", self.0.space, Hex(self.0.id.as_slice()))
    }
}

impl fmt::Display for ValuesText<'_> {
    ghost use Rattle.std.specs.Prelude.{Some};
    ghost use Rattle.us_report.specs.Text.{values_text};

    ghost output = { λ a. Some (values_text a.0.now) };

    fn fmt<W: fmt::Write>(&self, f: &mut fmt::Formatter<W>) -> fmt::Result {
        match self.0.split_first() {
            None => Ok(()),
            Some((first, others)) => {
                write!(f, "{}{}", Hex(first.as_slice()), OthersText(others))
            }
        }
    }
}

impl fmt::Display for OthersText<'_> {
    ghost use Rattle.std.specs.Prelude.{Some};
    ghost use Rattle.us_report.specs.Text.{others_text};

    ghost output = { λ a. Some (others_text a.0.now) };

    fn fmt<W: fmt::Write>(&self, f: &mut fmt::Formatter<W>) -> fmt::Result {
        for value in self.0 {
            write!(f, ",{}", Hex(value.as_slice()))?;
        }
        Ok(())
    }
}

impl fmt::Display for OpText<'_> {
    ghost use Rattle.std.specs.Prelude.{Some};
    ghost use Rattle.us_report.specs.Text.{op_text};

    ghost output = { λ a. Some (op_text a.0.now) };

    fn fmt<W: fmt::Write>(&self, f: &mut fmt::Formatter<W>) -> fmt::Result {
        match self.0 {
            Op::RegisterRead => f.write_str("read"),
            Op::RegisterWrite { value } => write!(f, "write:{}", Hex(value.as_slice())),
            Op::CounterRead => f.write_str("read"),
            Op::CounterAdd { amount } => write!(f, "add:{amount}"),
            Op::SetMembers => f.write_str("members"),
            Op::SetContains { value } => write!(f, "contains:{}", Hex(value.as_slice())),
            Op::SetAdd { value } => write!(f, "add:{}", Hex(value.as_slice())),
            Op::SetRemove { value } => write!(f, "remove:{}", Hex(value.as_slice())),
            Op::FlagRead => f.write_str("read"),
            Op::FlagEnable => f.write_str("enable"),
            Op::FlagDisable => f.write_str("disable"),
            Op::MultiRead => f.write_str("read"),
            Op::MultiWrite { value } => write!(f, "write:{}", Hex(value.as_slice())),
        }
    }
}

impl fmt::Display for AnswerText<'_> {
    ghost use Rattle.std.specs.Prelude.{Some};
    ghost use Rattle.us_report.specs.Text.{answer_text};

    ghost output = { λ a. Some (answer_text a.0.now) };

    fn fmt<W: fmt::Write>(&self, f: &mut fmt::Formatter<W>) -> fmt::Result {
        match self.0 {
            Answer::Done => f.write_str("done"),
            Answer::Nothing => f.write_str("none"),
            Answer::Value { value } => write!(f, "value:{}", Hex(value.as_slice())),
            Answer::Number { number } => write!(f, "number:{number}"),
            Answer::Values { values } => {
                write!(
                    f,
                    "values:{}:{}",
                    values.len(),
                    ValuesText(values.as_slice())
                )
            }
            Answer::Bit { yes } => f.write_str(if *yes { "yes" } else { "no" }),
        }
    }
}

impl fmt::Display for EndText<'_> {
    ghost use Rattle.std.specs.Prelude.{Some};
    ghost use Rattle.us_report.specs.Text.{end_text};

    ghost output = { λ a. Some (end_text a.0.now) };

    fn fmt<W: fmt::Write>(&self, f: &mut fmt::Formatter<W>) -> fmt::Result {
        match self.0 {
            LooseEnd::Open => f.write_str("open"),
            LooseEnd::Left => f.write_str("left"),
            LooseEnd::Aborted { named, item } => {
                write!(f, "aborted:{}:{}", TidText(*named), ItemText(item))
            }
        }
    }
}

impl fmt::Display for CountsText<'_> {
    ghost use Rattle.std.specs.Prelude.{Some};
    ghost use Rattle.us_report.specs.Text.{counts_text};

    ghost output = { λ a. Some (counts_text a.0.now) };

    #[tactic(auto, unfolding(crate::specs::Text::counts_text))]
    fn fmt<W: fmt::Write>(&self, f: &mut fmt::Formatter<W>) -> fmt::Result {
        let execution = self.0;
        write!(
            f,
            "committed {} strong {} aborted {} loose {} links {}",
            execution.entries.len(),
            strong_count(execution.entries.as_slice()),
            aborted_count(execution.loose.as_slice()),
            execution.loose.len(),
            execution.links.len()
        )
    }
}

/// Whether a transaction is strong, as it is printed.
pub fn kind_word(strong: bool) -> &'static str
    ensures { result.now ≡ kind_text strong }
{
    if strong { "strong" } else { "causal" }
}

/// How many of the transactions are strong.
fn strong_count(entries: &[Entry]) -> usize
    ensures { result ≡ strong_count entries.now }
{
    let mut count = 0;
    for entry in entries {
        if entry.strong {
            count += 1;
        }
    }
    count
}

/// Whether the transaction was aborted.
fn is_aborted(end: &LooseEnd) -> bool
    ensures { result ≡ is_aborted end.now }
{
    matches!(end, LooseEnd::Aborted { .. })
}

/// How many of the transactions were aborted.
fn aborted_count(loose: &[Loose]) -> usize
    ensures { result ≡ aborted_count loose.now }
{
    let mut count = 0;
    for one in loose {
        if is_aborted(&one.end) {
            count += 1;
        }
    }
    count
}
