//! The numbers that stand for what is encoded.

/// The tags of messages.
pub(crate) mod tag {
    pub(crate) const GET: u8 = 1;

    pub(crate) const VERSION: u8 = 2;

    pub(crate) const PREPARE: u8 = 3;

    pub(crate) const PREPARED: u8 = 4;

    pub(crate) const COMMIT: u8 = 5;

    pub(crate) const REPLICATE: u8 = 6;

    pub(crate) const KNOWN_LOCAL: u8 = 7;

    pub(crate) const STABLE: u8 = 8;

    pub(crate) const KNOWN_GLOBAL: u8 = 9;

    pub(crate) const SUBMIT: u8 = 10;

    pub(crate) const OUTCOME: u8 = 11;

    pub(crate) const DELIVER: u8 = 12;

    pub(crate) const NEW_BALLOT: u8 = 13;

    pub(crate) const PROMISE: u8 = 14;

    pub(crate) const NEW_STATE: u8 = 15;

    pub(crate) const ACCEPT: u8 = 16;

    pub(crate) const ACCEPTED: u8 = 17;

    pub(crate) const CATCH_UP: u8 = 18;

    pub(crate) const LEARN: u8 = 19;
}

/// The codes of what a version tells.
pub(crate) mod form_code {
    pub(crate) const ANSWERED: u8 = 0;

    pub(crate) const WRITES_FULL: u8 = 7;

    pub(crate) const ANSWER_FULL: u8 = 8;
}

/// The codes of pages.
pub(crate) mod page_code {
    pub(crate) const SKIP: u8 = 0;

    pub(crate) const HOLDS: u8 = 1;
}

/// The codes of how strong transactions end.
pub(crate) mod end_code {
    pub(crate) const COMMIT: u8 = 1;

    pub(crate) const ABORT: u8 = 2;
}
