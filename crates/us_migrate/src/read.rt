ghost use Rattle.std.specs.Prelude.{◌≡◌, ◌≤◌, ℕ, IfSome, None, Some};
ghost use Rattle.us_base.specs.Shape.{IsShape};
ghost use Rattle.us_wire.specs.Fields.{StandsAt};
ghost use Rattle.us_migrate.specs.declared.token.Token.{Token};
ghost use Rattle.us_migrate.specs.Decoders.{tid_at, vector_at, token_at};
ghost use Rattle.us_migrate.specs.Encodings.{token_encoding, TokenFits};

use crate::Token;
use us_base::{Shape, Vector};
use us_kind::Tid;
use us_wire::{take_number, take_u8_between};

/// A transaction of a store of this shape, and the place behind it.
#[tactic(auto, unfolding(crate::specs::Decoders::tid_at))]
pub fn take_tid(input: &[u8], at: usize, shape: Shape) -> Option<(Tid, usize)>
    requires { IsShape shape }
    ensures { result ≡ tid_at shape input.now at }
{
    let (site, at) = take_u8_between(input, at, 1, shape.sites())?;
    let (coord, at) = take_u8_between(input, at, 1, shape.parts)?;
    let (seq, at) = take_number(input, at, 1)?;
    Some((Tid { site, coord, seq }, at))
}

/// A vector of a store of this shape, and the place behind it. Entries above its sites are 0.
pub fn take_vector(input: &[u8], at: usize, shape: Shape) -> Option<(Vector, usize)>
    requires { IsShape shape }
    ensures { result ≡ vector_at shape input.now at }
{
    let mut vector = Vector::zero();
    let mut next = at;
    for i in 0..shape.sites() + 1 {
        let (number, behind) = take_number(input, next, 0)?;
        vector = vector.with_entry(i, number);
        next = behind;
    }
    Some((vector, next))
}

/// The token that stands at the place.
#[tactic(auto, unfolding(crate::specs::Decoders::token_at))]
fn token_in(input: &[u8], at: usize, shape: Shape) -> Option<(Token, usize)>
    requires { IsShape shape }
    ensures { result ≡ token_at shape input.now at }
{
    let (site, at) = take_u8_between(input, at, 1, shape.sites())?;
    let (coord, at) = take_u8_between(input, at, 1, shape.parts)?;
    let (session, at) = take_number(input, at, 1)?;
    let (count, at) = take_number(input, at, 0)?;
    let (vector, next) = take_vector(input, at, shape)?;
    let token = Token {
        site,
        coord,
        session,
        count,
        vector,
    };
    Some((token, next))
}

/// The token whose encoding stands at the place, and the place behind it; none where no token's encoding stands there.
pub fn read_token(input: &[u8], at: usize, shape: Shape) -> Option<(Token, usize)>
    requires { IsShape shape }
    ensures read { result ≡ token_at shape input.now at }
    ensures found { IfSome result (λ read. StandsAt (token_encoding shape read.0) input.now at read.1 × TokenFits shape read.0) }
    ensures again { (token : Token) (next : ℕ) → TokenFits shape token → StandsAt (token_encoding shape token) input.now at next → result ≡ Some (token, next) }
    ensures none { result ≡ None → (token : Token) (next : ℕ) → TokenFits shape token → ¬ StandsAt (token_encoding shape token) input.now at next }
{
    token_in(input, at, shape)
}
