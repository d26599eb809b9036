//! Which answers have an encoding.
ghost use Rattle.std.specs.Prelude.{◌≡◌, ◌↔◌, FitsSigned, IsTrue};
ghost use Rattle.std.specs.Int.{w128};
ghost use Rattle.us_fields.specs.Fields.{AnswerFits, ValuesFit};
ghost use Rattle.us_fields.specs.Lengths.{all_short};

use crate::values::ascend;
use us_base::Limits;
use us_kind::Bytes;
use us_value::Answer;

/// How many bytes a value has at most.
const VALUE_LIMIT: usize = Limits::VALUE;

/// How many values a count of four bytes tells at most.
const VALUES_LIMIT: usize = u32::MAX as usize;

/// Whether no value is too long.
fn are_short(values: &[Bytes]) -> bool
    ensures { result ≡ all_short values.now }
{
    for value in values {
        if value.len() > VALUE_LIMIT {
            return false;
        }
    }
    true
}

/// Whether the values have an encoding: few enough, short enough, ascending, each once.
#[tactic(auto, using(crate::proofs::ValueTests::values_fit, crate::proofs::ValueTests::fit_values))]
fn values_fit(values: &[Bytes]) -> bool
    ensures { IsTrue result ↔ ValuesFit values.now }
{
    values.len() <= VALUES_LIMIT && are_short(values) && ascend(values)
}

/// Every number of 128 bits has an encoding.
fn number_fits(number: i128)
    ensures { FitsSigned w128 number }
{
    let _every = number;
}

/// Whether the answer has an encoding.
pub fn answer_fits(answer: &Answer) -> bool
    ensures { IsTrue result ↔ AnswerFits answer.now }
{
    match answer {
        Answer::Done | Answer::Nothing | Answer::Bit { .. } => true,
        Answer::Number { number } => {
            number_fits(*number);
            true
        }
        Answer::Value { value } => value.len() <= VALUE_LIMIT,
        Answer::Values { values } => values_fit(values.as_slice()),
    }
}
