ghost use Rattle.std.specs.Prelude.{◌≡◌, ◌↔◌, ℕ, IfOk, None, false};
ghost use Rattle.std.specs.List.{list_any};
ghost use Rattle.us_value.specs.declared.operation.Class.{Class};
ghost use Rattle.us_conflict.specs.Conflicts.{class_code, is_pair, declares, operations_conflict, conflicts_with_some, first_conflict, transactions_conflict};
ghost use Rattle.us_conflict.specs.Places.{place_of, stands_in};

use std::alloc::Global;
use std::collections::BTreeSet;
use std::marker::Model;
use us_kind::{Items, Memory};
use us_value::{Class, Item};

/// A pair as numbers: the space, and the codes of both classes.
type Place = (u8, u8, u8);

fn code(class: Class) -> u8
    ensures { result ≡ class_code class }
{
    match class {
        Class::Read => 1,
        Class::Write => 2,
        Class::Give => 3,
        Class::Take => 4,
        Class::Add => 5,
        Class::Remove => 6,
        Class::Enable => 7,
        Class::Disable => 8,
    }
}

fn place(space: u8, a: Class, b: Class) -> Place
    ensures { result ≡ place_of space a b }
{
    (space, code(a), code(b))
}

/// The places of the pairs.
fn places_of(alloc: Global, pairs: &[(u8, Class, Class)]) -> Result<BTreeSet<Place>, Memory>
    ensures { IfOk result (λ places. (space : ℕ) (a b : Class) → stands_in places.keys space a b ≡ list_any (λ pair. is_pair pair space a b) pairs.now) }
{
    let mut places = BTreeSet::new(alloc);
    for pair in pairs {
        places.insert(place(pair.0, pair.1, pair.2))?;
    }
    Ok(places)
}

/// Whether the pair stands there in this order.
fn has(places: &BTreeSet<Place>, space: u8, a: Class, b: Class) -> bool
    ensures { result ≡ stands_in places.now.keys space a b }
{
    places.contains(&place(space, a, b))
}

/// The pairs of classes that conflict, by space. A pair counts in both orders. Contracts see the list of the pairs.
#[derive(Drop)]
pub struct Conflicts {
    pairs: Items<(u8, Class, Class)>,
    places: BTreeSet<Place>,
}

impl Model for Conflicts {
    ghost use Rattle.std.specs.Prelude.{◌≡◌, ℕ, List};
    ghost use Rattle.std.specs.List.{list_any};
    ghost use Rattle.us_value.specs.declared.operation.Class.{Class};
    ghost use Rattle.us_conflict.specs.Conflicts.{is_pair};
    ghost use Rattle.us_conflict.specs.Places.{stands_in};

    ghost Value = { List (ℕ × Class × Class) };

    ghost view = { λ c. c.pairs };

    ghost invariant = { λ c. (space : ℕ) (a b : Class) → stands_in c.places.keys space a b ≡ list_any (λ pair. is_pair pair space a b) c.pairs };
}

impl Conflicts {
    /// The conflicts of these pairs of classes, each of a space.
    pub fn new(alloc: Global, pairs: &[(u8, Class, Class)]) -> Result<Conflicts, Memory>
        ensures { IfOk result (λ conflicts. conflicts ≡ pairs.now) }
    {
        let places = places_of(alloc, pairs)?;
        let pairs = Items::of(Vec::from_slice(alloc, pairs)?);
        Ok(Conflicts { pairs, places })
    }

    /// Whether operations of these classes on one item of the space conflict. The order of the classes makes no difference.
    pub fn declared(&self, space: u8, a: Class, b: Class) -> bool
        ensures declared { result ≡ declares self.now space a b }
        ensures symmetric { result ≡ declares self.now space b a }
    {
        has(&self.places, space, a, b) || has(&self.places, space, b, a)
    }

    /// Whether the two operations conflict.
    fn operations(&self, x: &(Item, Class), y: &(Item, Class)) -> bool
        ensures { result ≡ operations_conflict self.now x.now y.now }
    {
        x.0.same(&y.0) && self.declared(x.0.space, x.1, y.1)
    }

    /// Whether the operation conflicts with some of the others.
    fn with_some(&self, x: &(Item, Class), others: &[(Item, Class)]) -> bool
        ensures { result ≡ conflicts_with_some self.now others.now x.now }
    {
        others.iter().any(|other| self.operations(x, other))
    }

    fn first(&self, a: &[(Item, Class)], b: &[(Item, Class)]) -> Option<usize>
        ensures { result ≡ first_conflict self.now a.now b.now }
    {
        a.iter().position(|x| self.with_some(x, b))
    }

    /// The first place in `a`, from 0, whose operation conflicts with one of `b`, and None exactly where there is none.
    pub fn transactions(&self, a: &[(Item, Class)], b: &[(Item, Class)]) -> Option<usize>
        ensures first { result ≡ first_conflict self.now a.now b.now }
        ensures none { (result ≡ None) ↔ (transactions_conflict self.now a.now b.now ≡ false) }
    {
        self.first(a, b)
    }

    pub fn copy(&self) -> Result<Conflicts, Memory>
        ensures { IfOk result (λ copy. copy ≡ self.now) }
    {
        Ok(Conflicts {
            pairs: self.pairs.clone()?,
            places: self.places.clone()?,
        })
    }
}
