ghost use Rattle.std.specs.Prelude.{◌≡◌, IfOk};

use us_kind::{Memory, Tid};
use us_migrate::Token;
use us_value::{Answer, Item, Op};

/// What a client asks of its session.
#[derive(Debug, PartialEq, Eq, Drop)]
pub enum Request {
    Begin,
    Perform { item: Item, op: Op },
    CommitCausal,
    CommitStrong,
    Abandon,
    Barrier,
    AskToken,
    Attach { token: Token },
}

impl Request {
    pub fn copy(&self) -> Result<Request, Memory>
        ensures { IfOk result (λ copy. copy ≡ self.now) }
    {
        Ok(match self {
            Request::Begin => Request::Begin,
            Request::Perform { item, op } => Request::Perform {
                item: item.copy()?,
                op: op.copy()?,
            },
            Request::CommitCausal => Request::CommitCausal,
            Request::CommitStrong => Request::CommitStrong,
            Request::Abandon => Request::Abandon,
            Request::Barrier => Request::Barrier,
            Request::AskToken => Request::AskToken,
            Request::Attach { token } => Request::Attach { token: *token },
        })
    }
}

/// What a session tells its client. `at` is the number of the session's frame that is answered, from 1; it is 0 for a
/// refused open.
#[derive(Debug, PartialEq, Eq, Drop)]
pub enum Reply {
    Started { at: u64, tid: Tid },
    Answered { at: u64, answer: Answer },
    /// `count` counts the session's committed transactions.
    Committed { at: u64, count: u64 },
    /// `named` is the transaction that conflicts, on `item`.
    Aborted { at: u64, named: Tid, item: Item },
    Dropped { at: u64 },
    Passed { at: u64 },
    TokenIs { at: u64, token: Token },
    Attached { at: u64 },
    /// `number` says why, from 1 to 11, as docs/PROTOCOL.md lists it.
    Refused { at: u64, number: u8 },
}

impl Reply {
    pub fn copy(&self) -> Result<Reply, Memory>
        ensures { IfOk result (λ copy. copy ≡ self.now) }
    {
        Ok(match self {
            Reply::Started { at, tid } => Reply::Started { at: *at, tid: *tid },
            Reply::Answered { at, answer } => Reply::Answered {
                at: *at,
                answer: answer.copy()?,
            },
            Reply::Committed { at, count } => Reply::Committed {
                at: *at,
                count: *count,
            },
            Reply::Aborted { at, named, item } => Reply::Aborted {
                at: *at,
                named: *named,
                item: item.copy()?,
            },
            Reply::Dropped { at } => Reply::Dropped { at: *at },
            Reply::Passed { at } => Reply::Passed { at: *at },
            Reply::TokenIs { at, token } => Reply::TokenIs {
                at: *at,
                token: *token,
            },
            Reply::Attached { at } => Reply::Attached { at: *at },
            Reply::Refused { at, number } => Reply::Refused {
                at: *at,
                number: *number,
            },
        })
    }
}

/// The greatest number of a refusal.
pub(crate) const CAUSES: u8 = 11;

/// The tags of requests and replies.
pub(crate) mod tag {
    pub(crate) const BEGIN: u8 = 1;

    pub(crate) const PERFORM: u8 = 2;

    pub(crate) const COMMIT_CAUSAL: u8 = 3;

    pub(crate) const COMMIT_STRONG: u8 = 4;

    pub(crate) const ABANDON: u8 = 5;

    pub(crate) const BARRIER: u8 = 6;

    pub(crate) const ASK_TOKEN: u8 = 7;

    pub(crate) const ATTACH: u8 = 8;

    pub(crate) const STARTED: u8 = 129;

    pub(crate) const ANSWERED: u8 = 130;

    pub(crate) const COMMITTED: u8 = 131;

    pub(crate) const ABORTED: u8 = 132;

    pub(crate) const DROPPED: u8 = 133;

    pub(crate) const PASSED: u8 = 134;

    pub(crate) const TOKEN_IS: u8 = 135;

    pub(crate) const ATTACHED: u8 = 136;

    pub(crate) const REFUSED: u8 = 137;
}
