ghost use Rattle.std.specs.Prelude.{◌≡◌, nat_le, Ok, Err, if◌then◌else◌};
ghost use Rattle.us_base.specs.Shape.{IsShape};
ghost use Rattle.us_schedule.specs.Lines.{number_in, number, is_site, is_coord, is_actor, is_positive};

use crate::LineFault;
use us_base::Shape;

// The number that decimal digits write.
fn decimal_value(digits: &[u8]) -> Option<u64>
    ensures { result ≡ number_in digits.now }
{
    let mut value = 0u64;
    for digit in digits {
        if !digit.is_ascii_digit() {
            return None;
        }
        value = value
            .checked_mul(10)?
            .checked_add(u64::from(*digit - b'0'))?;
    }
    Some(value)
}

/// The number of a word: decimal digits without a leading zero.
pub fn number_of(word: &[u8]) -> Result<u64, LineFault>
    ensures { result ≡ number word.now }
{
    if word.is_empty() || (word[0] == b'0' && word.len() > 1) {
        return Err(LineFault::BadNumber);
    }
    decimal_value(word).ok_or(LineFault::BadNumber)
}

/// The number, where it is at most the limit.
pub fn at_most(limit: u64, number: u64) -> Result<u64, LineFault>
    ensures { result ≡ (if nat_le number limit then Ok number else Err LineFault.OutOfRange) }
{
    if number > limit {
        return Err(LineFault::OutOfRange);
    }
    Ok(number)
}

/// The number, where it counts from 1.
pub fn positive(number: u64) -> Result<u64, LineFault>
    ensures { result ≡ (if is_positive number then Ok number else Err LineFault.OutOfRange) }
{
    if number == 0 {
        return Err(LineFault::OutOfRange);
    }
    Ok(number)
}

/// The number, where it is a site's.
pub fn site_in(shape: Shape, number: u64) -> Result<u8, LineFault>
    requires { IsShape shape }
    ensures { result ≡ (if is_site shape number then Ok number else Err LineFault.OutOfRange) }
{
    let number = at_most(u64::from(shape.sites()), positive(number)?)?;
    Ok(number as u8)
}

/// The number, where it is a coordinator's.
pub fn coord_in(shape: Shape, number: u64) -> Result<u8, LineFault>
    ensures { result ≡ (if is_coord shape number then Ok number else Err LineFault.OutOfRange) }
{
    actor_in(shape, positive(number)?)
}

/// The number, where it is an actor's.
pub fn actor_in(shape: Shape, number: u64) -> Result<u8, LineFault>
    ensures { result ≡ (if is_actor shape number then Ok number else Err LineFault.OutOfRange) }
{
    let number = at_most(u64::from(shape.parts), number)?;
    Ok(number as u8)
}
