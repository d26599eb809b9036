ghost use Rattle.std.specs.Prelude.{◌≡◌, ◌+ℤ◌, ◌≤ℤ◌, ◌++◌, ◌∷◌, [], ◌-◌, ◌^◌, ◌≤◌, length, pos, negsuc, true, OnOk, OnErr, IfOk};
ghost use Rattle.us_sets.specs.Marks.{is_zero};

use std::alloc::{AllocError, Global};
use std::collections::BTreeMap;
use std::marker::Model;
use us_kind::{Items, Memory, Tag};

/// A count is lowered only from here on, and by at most 2^62 at once, so that it stays in its type.
const LEAST: i64 = -0x4000_0000_0000_0000;

const MOST: usize = 0x4000_0000_0000_0000;

fn is_zero(count: i64) -> bool
    ensures { result ≡ is_zero count }
{
    count == 0
}

/// A count that no longer fits is answered as out of memory.
fn sum(count: i64, by: i64) -> Result<i64, Memory>
    ensures { IfOk result (λ n. n ≡ (count +ℤ by)) }
{
    count.checked_add(by).ok_or(Memory)
}

/// Which updates added a thing and were not taken away: how often each was added, less how often it was taken away.
///
/// A count of 0 is not kept. One below 0 waits for an addition that has not arrived yet.
#[derive(Drop)]
pub struct Marks {
    counts: BTreeMap<Tag, i64>,
}

impl Model for Marks {
    ghost use Rattle.us_sets.specs.Marks.{Counts, counts_code};
    ghost use Rattle.std.specs.FinMap.{from_entries};

    ghost Value = { Counts };

    ghost coded = { counts_code };

    ghost view = { λ m. from_entries m.counts.entries };
}

impl Marks {
    ghost use Rattle.std.specs.FinMap.{empty, insert, contains_key};
    ghost use Rattle.us_sets.specs.Room.{missing, AreMissing, AreKept, IsHigh, AreHigh, forgotten, opened, lowered, swept};
    ghost use Rattle.us_sets.specs.Marks.{count_at, shifted, taken, is_live, live_tags, is_nothing};

    pub fn new(alloc: Global) -> Marks
        ensures { result ≡ empty }
    {
        Marks {
            counts: BTreeMap::new(alloc),
        }
    }

    /// Whether nothing is kept.
    pub fn is_empty(&self) -> bool
        ensures { result ≡ is_nothing self.now }
    {
        self.counts.is_empty()
    }

    /// Whether some addition is there.
    pub fn is_live(&self) -> bool
        ensures { result ≡ is_live self.now }
    {
        for count in self.counts.values() {
            if *count > 0 {
                return true;
            }
        }
        false
    }

    /// The tags of the additions that are there, ascending.
    pub fn live(&self, alloc: Global) -> Result<Items<Tag>, Memory>
        ensures { IfOk result (λ tags. tags ≡ live_tags self.now) }
    {
        let mut live = Items::new(alloc);
        for (tag, count) in &self.counts {
            if *count > 0 {
                live.push(*tag)?;
            }
        }
        Ok(live)
    }

    /// One more or one less at a tag.
    pub fn shift(&mut self, tag: Tag, by: i64) -> Result<(), Memory>
        ensures ok { OnOk result (self.new ≡ shifted self.old tag by) }
        ensures err { OnErr result (self.new ≡ self.old) }
    {
        let count = sum(self.counts.get(&tag).copied().unwrap_or(0), by)?;
        if is_zero(count) {
            self.counts.remove(&tag);
        } else {
            self.counts.insert(tag, count)?;
        }
        Ok(())
    }

    /// Adds a tag to the list, unless a count is kept at it. A count so low that it could leave its type is answered
    /// as out of memory.
    fn note(&self, tag: Tag, absent: &mut Items<Tag>) -> Result<(), Memory>
        ensures noted { OnOk result (absent.new ≡ absent.old ++ missing self.now (tag ∷ [])) }
        ensures high { OnOk result (IsHigh (count_at self.now tag)) }
    {
        match self.counts.get(&tag) {
            None => absent.push(tag),
            Some(count) => {
                if *count < LEAST {
                    return Err(Memory);
                }
                Ok(())
            }
        }
    }

    /// Those of the tags at which no count is kept.
    fn absent(&self, alloc: Global, tags: &[Tag]) -> Result<Items<Tag>, Memory>
        ensures absent { IfOk result (λ absent. absent ≡ missing self.now tags.now) }
        ensures high { OnOk result (AreHigh self.now tags.now) }
    {
        let mut absent = Items::new(alloc);
        for tag in tags {
            self.note(*tag, &mut absent)?;
        }
        Ok(absent)
    }

    /// Keeps nothing at the tags.
    fn forget(&mut self, tags: &[Tag])
        ensures { self.new ≡ forgotten self.old tags.now }
    {
        for tag in tags {
            self.counts.remove(tag);
        }
    }

    /// Keeps a count of 0 at a tag.
    fn place_zero(&mut self, tag: Tag) -> Result<(), Memory>
        ensures ok { OnOk result (self.new ≡ insert self.old tag (pos 0)) }
        ensures err { OnErr result (self.new ≡ self.old) }
    {
        self.counts.insert(tag, 0)?;
        Ok(())
    }

    /// Keeps a count of 0 at tags that have none yet.
    fn admit(&mut self, tags: &[Tag]) -> Result<(), Memory>
        requires { AreMissing self.old tags.now }
        ensures ok { OnOk result (self.new ≡ opened self.old tags.now) }
        ensures err { OnErr result (self.new ≡ self.old) }
    {
        for tag in tags {
            if self.place_zero(*tag).is_err() {
                self.forget(tags);
                return Err(Memory);
            }
        }
        Ok(())
    }

    /// One less at a tag at which a count is kept, which takes no memory. The count may become 0.
    fn lower(&mut self, tag: Tag)
        requires kept { contains_key self.old tag ≡ true }
        requires fits { negsuc (2 ^ 63 - 2) ≤ℤ count_at self.old tag }
        ensures { self.new ≡ lowered self.old (tag ∷ []) }
    {
        if let Some(count) = self.counts.get_mut(&tag) {
            *count -= 1;
        }
    }

    /// One less at each of the tags, at which counts are kept. It takes no memory.
    fn lower_each(&mut self, tags: &[Tag])
        requires kept { AreKept self.old tags.now }
        requires high { AreHigh self.old tags.now }
        requires few { length tags.now ≤ 2 ^ 62 }
        ensures { self.new ≡ lowered self.old tags.now }
    {
        for tag in tags {
            self.lower(*tag);
        }
    }

    /// Keeps no count of 0 at a tag.
    fn sweep(&mut self, tag: Tag)
        ensures { self.new ≡ swept self.old (tag ∷ []) }
    {
        if is_zero(self.counts.get(&tag).copied().unwrap_or(0)) {
            self.counts.remove(&tag);
        }
    }

    /// Keeps no count of 0 at the tags.
    fn sweep_each(&mut self, tags: &[Tag])
        ensures { self.new ≡ swept self.old tags.now }
    {
        for tag in tags {
            self.sweep(*tag);
        }
    }

    /// One less at each of the tags. What may fail comes first.
    pub fn take(&mut self, alloc: Global, tags: &[Tag]) -> Result<(), Memory>
        ensures ok { OnOk result (self.new ≡ taken self.old tags.now) }
        ensures err { OnErr result (self.new ≡ self.old) }
    {
        if tags.len() > MOST {
            return Err(Memory);
        }
        let absent = self.absent(alloc, tags)?;
        self.admit(absent.as_slice())?;
        self.lower_each(tags);
        self.sweep_each(tags);
        Ok(())
    }

    pub fn copy(&self) -> Result<Marks, Memory>
        ensures { IfOk result (λ copy. copy ≡ self.now) }
    {
        Ok(Marks {
            counts: self.counts.clone()?,
        })
    }
}

impl Clone for Marks {
    ghost is_clone = { λ a b. b ≡ a };

    fn clone(&self) -> Result<Marks, AllocError> {
        Ok(Marks {
            counts: self.counts.clone()?,
        })
    }
}
