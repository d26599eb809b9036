ghost use Rattle.std.specs.Prelude.{◌≡◌, ◌++◌, OnOk, string_bytes, List, ℕ};
ghost use Rattle.std.specs.List.{flat_map, list_any};
ghost use Rattle.us_report.specs.Text.{past_text, count_text, is_positive};

use crate::Report;
use crate::display::{
    AnswerText, CountsText, EndText, ItemText, OpText, SessionText, TidText, kind_word,
};
use std::alloc::AllocError;
use us_exec::{Count, Done, Entry, Link, Loose, RefusedRequest, WaitingRequest};

/// What has lines in a report.
pub trait Lines {
    // Its lines.
    ghost text: { Self → List ℕ };

    /// Adds its lines to a text.
    fn push(&self, line: &mut String) -> Result<(), AllocError>
        ensures { OnOk result (string_bytes line.new ≡ string_bytes line.old ++ text self.now) };
}

/// The last line of a report.
#[derive(Clone, Copy)]
pub struct Summary<'a>(pub &'a Report);

/// Adds the lines of each.
fn push_each<T: Lines>(line: &mut String, items: &[T]) -> Result<(), AllocError>
    ensures { OnOk result (string_bytes line.new ≡ string_bytes line.old ++ flat_map T.text items.now) }
{
    for item in items {
        item.push(line)?;
    }
    Ok(())
}

fn is_positive(count: &Count) -> bool
    ensures { result ≡ is_positive count.now }
{
    count.count > 0
}

/// Whether a past counts anything.
fn counts_any(past: &[Count]) -> bool
    ensures { result ≡ list_any is_positive past.now }
{
    past.iter().any(is_positive)
}

/// Adds each count that is above 0, after a space.
fn push_counts(line: &mut String, past: &[Count]) -> Result<(), AllocError>
    ensures { OnOk result (string_bytes line.new ≡ string_bytes line.old ++ flat_map count_text past.now) }
{
    for count in past {
        if is_positive(count) {
            write!(line, " {}={}", SessionText(count.session), count.count)?;
        }
    }
    Ok(())
}

/// Adds a past after a space.
#[tactic(auto, unfolding(crate::specs::Text::past_text))]
fn push_past(line: &mut String, past: &[Count]) -> Result<(), AllocError>
    ensures { OnOk result (string_bytes line.new ≡ string_bytes line.old ++ past_text past.now) }
{
    if counts_any(past) {
        push_counts(line, past)
    } else {
        line.push_str(" -")
    }
}

impl Lines for Done {
    ghost use Rattle.us_report.specs.Text.{done_text};

    ghost text = { done_text };

    fn push(&self, line: &mut String) -> Result<(), AllocError> {
        writeln!(
            line,
            "o {} {} {}",
            ItemText(&self.item),
            OpText(&self.op),
            AnswerText(&self.answer)
        )
    }
}

impl Lines for Entry {
    ghost use Rattle.us_report.specs.Text.{entry_text};

    ghost text = { entry_text };

    fn push(&self, line: &mut String) -> Result<(), AllocError> {
        write!(
            line,
            "t {} {} {} {}",
            TidText(self.tid),
            SessionText(self.session),
            self.number,
            kind_word(self.strong)
        )?;
        push_past(line, self.past.as_slice())?;
        line.push_str("\n")?;
        push_each(line, self.ops.as_slice())
    }
}

impl Lines for Loose {
    ghost use Rattle.us_report.specs.Text.{loose_text};

    ghost text = { loose_text };

    fn push(&self, line: &mut String) -> Result<(), AllocError> {
        write!(
            line,
            "l {} {} {}",
            TidText(self.tid),
            SessionText(self.session),
            EndText(&self.end)
        )?;
        push_past(line, self.past.as_slice())?;
        line.push_str("\n")?;
        push_each(line, self.ops.as_slice())
    }
}

impl Lines for Link {
    ghost use Rattle.us_report.specs.Text.{link_text};

    ghost text = { link_text };

    fn push(&self, line: &mut String) -> Result<(), AllocError> {
        writeln!(
            line,
            "k {} {} {}",
            SessionText(self.session),
            SessionText(self.from),
            self.count
        )
    }
}

impl Lines for RefusedRequest {
    ghost use Rattle.us_report.specs.Text.{refusal_text};

    ghost text = { refusal_text };

    fn push(&self, line: &mut String) -> Result<(), AllocError> {
        writeln!(
            line,
            "x {} {} {}",
            SessionText(self.session),
            self.at,
            self.number
        )
    }
}

impl Lines for WaitingRequest {
    ghost use Rattle.us_report.specs.Text.{waiting_text};

    ghost text = { waiting_text };

    fn push(&self, line: &mut String) -> Result<(), AllocError> {
        writeln!(line, "w {} {}", SessionText(self.session), self.at)
    }
}

impl Lines for Summary<'_> {
    ghost use Rattle.us_report.specs.Text.{summary_text};

    ghost text = { λ summary. summary_text summary.0.now };

    fn push(&self, line: &mut String) -> Result<(), AllocError> {
        writeln!(
            line,
            "{} refused {} waiting {}",
            CountsText(&self.0.execution),
            self.0.refused.len(),
            self.0.waiting.len()
        )
    }
}
