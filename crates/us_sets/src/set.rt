ghost use Rattle.std.specs.Prelude.{◌≡◌, true, if◌then◌else◌, OnOk, OnErr, IfOk};
ghost use Rattle.us_sets.specs.Marks.{moved};
ghost use Rattle.us_sets.specs.Set.{move_of};

use crate::Marks;
use std::alloc::Global;
use std::collections::BTreeMap;
use std::marker::Model;
use us_kind::{Bytes, Items, Memory, Replicated, Stamp, Tag};

/// What a user asks of a set.
#[derive(Drop)]
pub enum SetOp {
    SetMembers,
    SetContains { value: Bytes },
    SetAdd { value: Bytes },
    SetRemove { value: Bytes },
}

/// What an update does at each site: a removal carries the tags of the additions of its value that it met.
#[derive(Drop)]
pub enum SetEffect {
    SetAdd { value: Bytes },
    SetRemove { value: Bytes, tags: Items<Tag> },
}

impl SetEffect {
    ghost use Rattle.us_sets.specs.Set.{element_of};

    /// The element that it is about.
    fn value(&self) -> &Bytes
        ensures { result.now ≡ element_of self.now }
    {
        match self {
            SetEffect::SetAdd { value } => value,
            SetEffect::SetRemove { value, .. } => value,
        }
    }
}

/// What a set answers: `Values` are its members, ascending by bytes, each once.
#[derive(Drop)]
pub enum SetAnswer {
    Done,
    Values { values: Items<Bytes> },
    Bit { yes: bool },
}

/// The marks of each element that has some.
#[derive(Drop)]
pub struct SetState {
    elements: BTreeMap<Bytes, Marks>,
}

impl Model for SetState {
    ghost use Rattle.us_sets.specs.Elements.{Elements, elements_code};
    ghost use Rattle.std.specs.FinMap.{from_entries};

    ghost Value = { Elements };

    ghost coded = { elements_code };

    ghost view = { λ s. from_entries s.elements.entries };
}

impl SetState {
    ghost use Rattle.std.specs.FinMap.{empty, entries, insert, remove, contains_key};
    ghost use Rattle.us_kind.specs.Defaults.{changed, with_value};
    ghost use Rattle.us_kind.specs.Keys.{keys_where};
    ghost use Rattle.us_sets.specs.Marks.{is_live, is_nothing, live_tags, moved};
    ghost use Rattle.us_sets.specs.Set.{marks_of, element_of, move_of};

    pub fn new(alloc: Global) -> SetState
        ensures { result ≡ empty }
    {
        SetState {
            elements: BTreeMap::new(alloc),
        }
    }

    pub fn contains(&self, value: &Bytes) -> bool
        ensures { result ≡ is_live (marks_of self.now value.now) }
    {
        match self.elements.get(value) {
            Some(marks) => marks.is_live(),
            None => false,
        }
    }

    /// The members, ascending by bytes, each once.
    pub fn members(&self, alloc: Global) -> Result<Items<Bytes>, Memory>
        ensures { IfOk result (λ members. members ≡ keys_where is_live (entries self.now)) }
    {
        let mut members = Items::new(alloc);
        for (value, marks) in &self.elements {
            if marks.is_live() {
                members.push(value.copy()?)?;
            }
        }
        Ok(members)
    }

    /// The tags of the additions of a value that are there, ascending.
    pub fn live(&self, alloc: Global, value: &Bytes) -> Result<Items<Tag>, Memory>
        ensures { IfOk result (λ tags. tags ≡ live_tags (marks_of self.now value.now)) }
    {
        match self.elements.get(value) {
            Some(marks) => marks.live(alloc),
            None => Ok(Items::new(alloc)),
        }
    }

    /// Keeps these marks of a value, and no value without marks.
    fn keep(&mut self, value: &Bytes, marks: Marks) -> Result<(), Memory>
        ensures ok { OnOk result (self.new ≡ with_value empty is_nothing self.old value.now marks) }
        ensures err { OnErr result (self.new ≡ self.old) }
    {
        if marks.is_empty() {
            self.elements.remove(value);
        } else {
            self.elements.insert(value.copy()?, marks)?;
        }
        Ok(())
    }

    /// Changes the marks of a value that has some. No other marks are looked at.
    fn change_kept(&mut self, alloc: Global, effect: &SetEffect, tag: Tag) -> Result<(), Memory>
        requires { contains_key self.old (element_of effect.now) ≡ true }
        ensures ok { OnOk result (self.new ≡ insert self.old (element_of effect.now) (moved (marks_of self.old (element_of effect.now)) (move_of effect.now) tag)) }
        ensures err { OnErr result (self.new ≡ self.old) }
    {
        match self.elements.get_mut(effect.value()) {
            Some(marks) => change_marks(alloc, marks, effect, tag),
            None => Ok(()),
        }
    }

    /// Whether nothing is kept of a value.
    fn is_bare(&self, value: &Bytes) -> bool
        ensures { result ≡ is_nothing (marks_of self.now value.now) }
    {
        match self.elements.get(value) {
            Some(marks) => marks.is_empty(),
            None => true,
        }
    }

    /// Keeps no value without marks.
    fn sweep(&mut self, value: &Bytes)
        ensures { self.new ≡ (if is_nothing (marks_of self.old value.now) then remove self.old value.now else self.old) }
    {
        if self.is_bare(value) {
            self.elements.remove(value);
        }
    }

    /// The state after an effect of the update with this tag.
    pub fn change(&mut self, alloc: Global, effect: &SetEffect, tag: Tag) -> Result<(), Memory>
        ensures ok { OnOk result (self.new ≡ changed empty is_nothing self.old (element_of effect.now) (λ m. moved m (move_of effect.now) tag)) }
        ensures err { OnErr result (self.new ≡ self.old) }
    {
        if self.elements.contains_key(effect.value()) {
            self.change_kept(alloc, effect, tag)?;
            self.sweep(effect.value());
            return Ok(());
        }
        let mut marks = Marks::new(alloc);
        change_marks(alloc, &mut marks, effect, tag)?;
        self.keep(effect.value(), marks)
    }

    pub fn copy(&self) -> Result<SetState, Memory>
        ensures { IfOk result (λ copy. copy ≡ self.now) }
    {
        Ok(SetState {
            elements: self.elements.clone()?,
        })
    }
}

/// What an effect does to the marks of its element.
fn change_marks(
    alloc: Global,
    marks: &mut Marks,
    effect: &SetEffect,
    tag: Tag,
) -> Result<(), Memory>
    ensures ok { OnOk result (marks.new ≡ moved marks.old (move_of effect.now) tag) }
    ensures err { OnErr result (marks.new ≡ marks.old) }
{
    match effect {
        SetEffect::SetAdd { .. } => marks.shift(tag, 1),
        SetEffect::SetRemove { tags, .. } => marks.take(alloc, tags.as_slice()),
    }
}

/// A set: an element is in it where some addition of it has no removal of it after it.
pub struct AddWinsSet;

impl Replicated for AddWinsSet {
    ghost use Rattle.us_sets.specs.Set.{set_initial, set_updated, set_answered, set_prepared, set_reads, set_value};
    ghost use Rattle.us_sets.specs.SetLaws.{set-commutes, set-reads, set-counts, set-in_order};

    type Op = SetOp;

    type Effect = SetEffect;

    type Answer = SetAnswer;

    type State = SetState;

    ghost initially = { set_initial };

    ghost updated = { set_updated };

    ghost answered = { set_answered };

    ghost prepared = { set_prepared };

    ghost is_reading = { set_reads };

    ghost update_count = { λ _. 0 };

    ghost value = { set_value };

    fn initial(alloc: Global) -> Result<SetState, Memory> {
        Ok(SetState::new(alloc))
    }

    fn answer(alloc: Global, state: &SetState, op: &SetOp) -> Result<SetAnswer, Memory> {
        match op {
            SetOp::SetMembers => Ok(SetAnswer::Values {
                values: state.members(alloc)?,
            }),
            SetOp::SetContains { value } => Ok(SetAnswer::Bit {
                yes: state.contains(value),
            }),
            SetOp::SetAdd { .. } | SetOp::SetRemove { .. } => Ok(SetAnswer::Done),
        }
    }

    fn prepare(
        alloc: Global,
        state: &SetState,
        op: &SetOp,
        _tag: Tag,
    ) -> Result<Option<SetEffect>, Memory> {
        match op {
            SetOp::SetMembers | SetOp::SetContains { .. } => Ok(None),
            SetOp::SetAdd { value } => Ok(Some(SetEffect::SetAdd {
                value: value.copy()?,
            })),
            SetOp::SetRemove { value } => Ok(Some(SetEffect::SetRemove {
                value: value.copy()?,
                tags: state.live(alloc, value)?,
            })),
        }
    }

    fn apply(
        alloc: Global,
        state: &mut SetState,
        effect: &SetEffect,
        stamp: Stamp,
    ) -> Result<(), Memory> {
        state.change(alloc, effect, stamp.tag())
    }

    ghost commutes = { set-commutes };

    ghost reads = { set-reads };

    ghost counts = { set-counts };

    ghost in_order = { set-in_order };
}
