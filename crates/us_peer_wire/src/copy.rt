//! Copies of packets and of what they hold.
ghost use Rattle.std.specs.Prelude.{◌≡◌, IfOk};

use crate::{Form, LogEntry, Message, Outcome, OutcomeEnd, Packet, Page, Verdict, Version};
use us_fields::copies_of;
use us_kind::{Memory, Slot};
use us_value::Effect;

impl Packet {
    /// A copy of the packet.
    pub fn copy(&self) -> Result<Packet, Memory>
        ensures { IfOk result (λ copy. copy ≡ self.now) }
    {
        Ok(Packet {
            from: self.from,
            to: self.to,
            message: self.message.copy()?,
        })
    }
}

impl Message {
    /// A copy of the message.
    pub fn copy(&self) -> Result<Message, Memory>
        ensures { IfOk result (λ copy. copy ≡ self.now) }
    {
        Ok(match self {
            Message::Get {
                tid,
                place,
                at,
                snapshot,
                item,
                op,
                own,
            } => Message::Get {
                tid: *tid,
                place: *place,
                at: *at,
                snapshot: *snapshot,
                item: item.copy()?,
                op: op.copy()?,
                own: copies_of(own)?,
            },
            Message::Version { version } => Message::Version {
                version: version.copy()?,
            },
            Message::Prepare {
                tid,
                snapshot,
                writes,
            } => Message::Prepare {
                tid: *tid,
                snapshot: *snapshot,
                writes: copies_of(writes)?,
            },
            Message::Prepared { tid, ts } => Message::Prepared { tid: *tid, ts: *ts },
            Message::Commit { tid, vector } => Message::Commit {
                tid: *tid,
                vector: *vector,
            },
            Message::Replicate {
                origin,
                lo,
                hi,
                txs,
            } => Message::Replicate {
                origin: *origin,
                lo: *lo,
                hi: *hi,
                txs: copies_of(txs)?,
            },
            Message::KnownLocal { known, horizon } => Message::KnownLocal {
                known: *known,
                horizon: *horizon,
            },
            Message::Stable { vector } => Message::Stable { vector: *vector },
            Message::KnownGlobal { vector } => Message::KnownGlobal { vector: *vector },
            Message::Submit { entry } => Message::Submit {
                entry: entry.copy()?,
            },
            Message::Outcome { outcome } => Message::Outcome {
                outcome: outcome.copy()?,
            },
            Message::Deliver { first, pages } => Message::Deliver {
                first: *first,
                pages: copies_of(pages)?,
            },
            Message::NewBallot { ballot } => Message::NewBallot { ballot: *ballot },
            Message::Promise {
                ballot,
                accepted,
                base,
                tail,
            } => Message::Promise {
                ballot: *ballot,
                accepted: *accepted,
                base: *base,
                tail: copies_of(tail)?,
            },
            Message::NewState { ballot, base, tail } => Message::NewState {
                ballot: *ballot,
                base: *base,
                tail: copies_of(tail)?,
            },
            Message::Accept {
                ballot,
                slot,
                entry,
            } => Message::Accept {
                ballot: *ballot,
                slot: *slot,
                entry: entry.copy()?,
            },
            Message::Accepted { ballot, length } => Message::Accepted {
                ballot: *ballot,
                length: *length,
            },
            Message::CatchUp { length } => Message::CatchUp { length: *length },
            Message::Learn { first, entries } => Message::Learn {
                first: *first,
                entries: copies_of(entries)?,
            },
        })
    }
}

impl Version {
    /// A copy of the version.
    pub fn copy(&self) -> Result<Version, Memory>
        ensures { IfOk result (λ copy. copy ≡ self.now) }
    {
        Ok(Version {
            tid: self.tid,
            place: self.place,
            at: self.at,
            form: self.form.copy()?,
        })
    }
}

impl Form {
    /// A copy of the form.
    pub fn copy(&self) -> Result<Form, Memory>
        ensures { IfOk result (λ copy. copy ≡ self.now) }
    {
        match self {
            Form::Answered { answer, effect } => Ok(Form::Answered {
                answer: answer.copy()?,
                effect: copy_of_effect(effect)?,
            }),
            Form::WritesFull => Ok(Form::WritesFull),
            Form::AnswerFull => Ok(Form::AnswerFull),
        }
    }
}

fn copy_of_effect(effect: &Option<Effect>) -> Result<Option<Effect>, Memory>
    ensures { IfOk result (λ copy. copy ≡ effect.now) }
{
    match effect {
        Some(effect) => Ok(Some(effect.copy()?)),
        None => Ok(None),
    }
}

impl LogEntry {
    /// A copy of the entry.
    pub fn copy(&self) -> Result<LogEntry, Memory>
        ensures { IfOk result (λ copy. copy ≡ self.now) }
    {
        Ok(LogEntry {
            tid: self.tid,
            snapshot: self.snapshot,
            touches: copies_of(&self.touches)?,
            writes: copies_of(&self.writes)?,
        })
    }
}

impl Slot for LogEntry {
    ghost use Rattle.us_peer_wire.specs.SameEntry.{same_entry};

    ghost same = { same_entry };

    fn copy(&self) -> Result<LogEntry, Memory> {
        LogEntry::copy(self)
    }
}

impl Outcome {
    /// A copy of the outcome.
    pub fn copy(&self) -> Result<Outcome, Memory>
        ensures { IfOk result (λ copy. copy ≡ self.now) }
    {
        Ok(Outcome {
            tid: self.tid,
            slot: self.slot,
            end: self.end.copy()?,
        })
    }
}

impl OutcomeEnd {
    /// A copy of the end.
    pub fn copy(&self) -> Result<OutcomeEnd, Memory>
        ensures { IfOk result (λ copy. copy ≡ self.now) }
    {
        match self {
            OutcomeEnd::Commit => Ok(OutcomeEnd::Commit),
            OutcomeEnd::Abort { named, item } => Ok(OutcomeEnd::Abort {
                named: *named,
                item: item.copy()?,
            }),
        }
    }
}

impl Page {
    /// A copy of the page.
    pub fn copy(&self) -> Result<Page, Memory>
        ensures { IfOk result (λ copy. copy ≡ self.now) }
    {
        match self {
            Page::Skip => Ok(Page::Skip),
            Page::Holds {
                tid,
                vector,
                writes,
            } => Ok(Page::Holds {
                tid: *tid,
                vector: *vector,
                writes: copies_of(writes)?,
            }),
        }
    }
}

impl Verdict {
    /// A copy of the verdict.
    pub fn copy(&self) -> Result<Verdict, Memory>
        ensures { IfOk result (λ copy. copy ≡ self.now) }
    {
        match self {
            Verdict::Commit => Ok(Verdict::Commit),
            Verdict::Abort { slot, named, item } => Ok(Verdict::Abort {
                slot: *slot,
                named: *named,
                item: item.copy()?,
            }),
            Verdict::Repeat => Ok(Verdict::Repeat),
        }
    }
}
