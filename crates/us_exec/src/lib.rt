//! What a user gets: an execution of transactions, and what it means that it is consistent.
#![tactic(auto)]

ghost use Rattle.std.specs.Prelude.{◌≡◌, ◌<◌, IfOk, Some, length, slice_get};
ghost use Rattle.us_exec.specs.declared.Entry.{Entry};
ghost use Rattle.us_exec.specs.Past.{count_in, is_before};

pub mod counterexamples;

use std::alloc::AllocError;
use us_kind::{Items, Memory, Tid};
use us_value::{Answer, Item, Op};

/// A session: the site and the coordinator that it was opened at, and its number there, from 1.
#[derive(Clone, Copy, Debug, PartialEq, Eq, PartialOrd, Ord, Hash)]
pub struct SessionName {
    pub site: u8,
    pub coord: u8,
    pub number: u64,
}

/// An operation that was answered.
#[derive(Debug, PartialEq, Eq, Drop)]
pub struct Done {
    pub item: Item,
    pub op: Op,
    pub answer: Answer,
}

impl Done {
    pub fn copy(&self) -> Result<Done, Memory>
        ensures { IfOk result (λ copy. copy ≡ self.now) }
    {
        Ok(Done {
            item: self.item.copy()?,
            op: self.op.copy()?,
            answer: self.answer.copy()?,
        })
    }
}

impl Clone for Done {
    ghost is_clone = { λ a b. b ≡ a };

    fn clone(&self) -> Result<Done, AllocError> {
        self.copy().map_err(|_| AllocError)
    }
}

/// Of a session, so many of its committed transactions, the first of them first.
#[derive(Clone, Copy, Debug, PartialEq, Eq)]
pub struct Count {
    pub session: SessionName,
    pub count: u64,
}

/// A committed transaction, the `number`-th of its session, from 1. `past` counts, per session, ascending
/// and above 0, the transactions that are before it.
#[derive(Debug, PartialEq, Eq, Drop)]
pub struct Entry {
    pub tid: Tid,
    pub session: SessionName,
    pub number: u64,
    pub strong: bool,
    pub ops: Items<Done>,
    pub past: Items<Count>,
}

impl Entry {
    pub fn copy(&self) -> Result<Entry, Memory>
        ensures { IfOk result (λ copy. copy ≡ self.now) }
    {
        Ok(Entry {
            tid: self.tid,
            session: self.session,
            number: self.number,
            strong: self.strong,
            ops: self.ops.clone()?,
            past: self.past.clone()?,
        })
    }
}

impl Clone for Entry {
    ghost is_clone = { λ a b. b ≡ a };

    fn clone(&self) -> Result<Entry, AllocError> {
        self.copy().map_err(|_| AllocError)
    }
}

/// How a transaction stands that was begun and isn't committed.
#[derive(Debug, PartialEq, Eq, Drop)]
pub enum LooseEnd {
    /// It may still commit.
    Open,
    /// Its client gave it up, or is gone.
    Left,
    /// A strong one that conflicts with a committed one, on this item, which isn't in its past.
    Aborted { named: Tid, item: Item },
}

impl LooseEnd {
    pub fn copy(&self) -> Result<LooseEnd, Memory>
        ensures { IfOk result (λ copy. copy ≡ self.now) }
    {
        Ok(match self {
            LooseEnd::Open => LooseEnd::Open,
            LooseEnd::Left => LooseEnd::Left,
            LooseEnd::Aborted { named, item } => LooseEnd::Aborted {
                named: *named,
                item: item.copy()?,
            },
        })
    }
}

/// A transaction that was begun and isn't committed.
#[derive(Debug, PartialEq, Eq, Drop)]
pub struct Loose {
    pub tid: Tid,
    pub session: SessionName,
    pub end: LooseEnd,
    pub ops: Items<Done>,
    pub past: Items<Count>,
}

impl Loose {
    pub fn copy(&self) -> Result<Loose, Memory>
        ensures { IfOk result (λ copy. copy ≡ self.now) }
    {
        Ok(Loose {
            tid: self.tid,
            session: self.session,
            end: self.end.copy()?,
            ops: self.ops.clone()?,
            past: self.past.clone()?,
        })
    }
}

impl Clone for Loose {
    ghost is_clone = { λ a b. b ≡ a };

    fn clone(&self) -> Result<Loose, AllocError> {
        self.copy().map_err(|_| AllocError)
    }
}

/// The session goes on after the first `count` committed transactions of another one.
#[derive(Clone, Copy, Debug, PartialEq, Eq)]
pub struct Link {
    pub session: SessionName,
    pub from: SessionName,
    pub count: u64,
}

/// An execution: the committed transactions in arbitration order, the others in order of beginning, and the
/// links between sessions in order of attaching.
#[derive(Debug, PartialEq, Eq, Drop)]
pub struct Execution {
    pub entries: Items<Entry>,
    pub loose: Items<Loose>,
    pub links: Items<Link>,
}

/// A request that was refused: the session, the count of its frames up to the one refused, and the number of the refusal,
/// from 1.
#[derive(Clone, Copy, Debug, PartialEq, Eq)]
pub struct RefusedRequest {
    pub session: SessionName,
    pub at: u64,
    pub number: u8,
}

/// An open session with unanswered requests, and the count of its frames up to the first of them.
#[derive(Clone, Copy, Debug, PartialEq, Eq)]
pub struct WaitingRequest {
    pub session: SessionName,
    pub at: u64,
}

/// How many transactions of a session a past counts.
fn count_in(session: &SessionName, past: &[Count]) -> u64
    ensures { result ≡ count_in session.now past.now }
{
    for count in past {
        if count.session == *session {
            return count.count;
        }
    }
    0
}

impl Execution {
    pub fn copy(&self) -> Result<Execution, Memory>
        ensures { IfOk result (λ copy. copy ≡ self.now) }
    {
        Ok(Execution {
            entries: self.entries.clone()?,
            loose: self.loose.clone()?,
            links: self.links.clone()?,
        })
    }

    /// Whether one transaction is before another, by their places in `entries`, from 0.
    pub fn before(&self, one: usize, other: usize) -> bool
        requires one { one < length self.now.entries }
        requires other { other < length self.now.entries }
        ensures { (d e : Entry) → slice_get self.now.entries one ≡ Some d → slice_get self.now.entries other ≡ Some e → result ≡ is_before d e.past }
    {
        let entries = self.entries.as_slice();
        let one = &entries[one];
        let past = entries[other].past.as_slice();
        one.number <= count_in(&one.session, past)
    }
}

#[cfg(test)]
mod tests {
    use super::*;
    use std::alloc::Global;
    use std::test::Fail;
    use us_kind::Bytes;

    fn entry(alloc: Global, number: u64, past: &[Count]) -> Result<Entry, Memory> {
        let session = SessionName {
            site: 1,
            coord: 1,
            number: 1,
        };
        Ok(Entry {
            tid: Tid {
                site: 1,
                coord: 1,
                seq: number,
            },
            session,
            number,
            strong: false,
            ops: Items::new(alloc),
            past: Items::of(Vec::from_slice(alloc, past)?),
        })
    }

    #[test]
    fn a_past_counts_the_first_of_a_session(rt: HostRuntime) -> Result<(), Fail> {
        let alloc = rt.alloc();
        let session = SessionName {
            site: 1,
            coord: 1,
            number: 1,
        };
        let mut entries = Items::new(alloc);
        entries.push(entry(alloc, 1, &[])?)?;
        entries.push(entry(alloc, 2, &[Count { session, count: 1 }])?)?;
        let execution = Execution {
            entries,
            loose: Items::new(alloc),
            links: Items::new(alloc),
        };
        assert!(rt; execution.before(0, 1));
        assert!(rt; !execution.before(1, 0));
        assert!(rt; !execution.before(1, 1));
        Ok(())
    }

    fn done(alloc: Global) -> Result<Done, Memory> {
        Ok(Done {
            item: Item {
                space: 1,
                id: Bytes::from_slice(alloc, b"a")?,
            },
            op: Op::RegisterRead,
            answer: Answer::Nothing,
        })
    }

    fn aborted(alloc: Global) -> Result<Loose, Memory> {
        let entry = entry(alloc, 3, &[])?;
        let mut ops = Items::new(alloc);
        ops.push(done(alloc)?)?;
        Ok(Loose {
            tid: entry.tid,
            session: entry.session,
            end: LooseEnd::Aborted {
                named: entry.tid,
                item: done(alloc)?.item,
            },
            ops,
            past: entry.past,
        })
    }

    #[test]
    fn a_copy_is_equal(rt: HostRuntime) -> Result<(), Fail> {
        let alloc = rt.alloc();
        let mut entries = Items::new(alloc);
        entries.push(entry(alloc, 1, &[])?)?;
        let mut loose = Items::new(alloc);
        loose.push(aborted(alloc)?)?;
        let execution = Execution {
            entries,
            loose,
            links: Items::new(alloc),
        };
        assert_eq!(rt; execution.copy()?, execution);
        Ok(())
    }
}
