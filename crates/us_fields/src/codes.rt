//! The numbers that stand for what is encoded.
use us_base::Limits;

/// The greatest length of an item's id, in bytes.
pub(crate) const ID_LIMIT: u8 = Limits::ITEM_ID;

/// The version that each frame names.
pub(crate) const VERSION: u8 = 1;

/// The codes of operations.
pub(crate) mod op_code {
    pub(crate) const REGISTER_READ: u8 = 1;

    pub(crate) const REGISTER_WRITE: u8 = 2;

    pub(crate) const COUNTER_READ: u8 = 3;

    pub(crate) const COUNTER_ADD: u8 = 4;

    pub(crate) const SET_MEMBERS: u8 = 5;

    pub(crate) const SET_CONTAINS: u8 = 6;

    pub(crate) const SET_ADD: u8 = 7;

    pub(crate) const SET_REMOVE: u8 = 8;

    pub(crate) const FLAG_READ: u8 = 9;

    pub(crate) const FLAG_ENABLE: u8 = 10;

    pub(crate) const FLAG_DISABLE: u8 = 11;

    pub(crate) const MULTI_READ: u8 = 12;

    pub(crate) const MULTI_WRITE: u8 = 13;
}

/// The codes of answers.
pub(crate) mod answer_code {
    pub(crate) const DONE: u8 = 0;

    pub(crate) const NOTHING: u8 = 1;

    pub(crate) const VALUE: u8 = 2;

    pub(crate) const NUMBER: u8 = 3;

    pub(crate) const VALUES: u8 = 4;

    pub(crate) const BIT: u8 = 5;
}

/// The greatest place of an operation in its transaction.
pub(crate) const PLACES: u8 = Limits::OPERATIONS as u8;

/// The codes of effects.
pub(crate) mod effect_code {
    pub(crate) const REGISTER_WRITE: u8 = 1;

    pub(crate) const COUNTER_ADD: u8 = 2;

    pub(crate) const SET_ADD: u8 = 3;

    pub(crate) const SET_REMOVE: u8 = 4;

    pub(crate) const ENABLE: u8 = 5;

    pub(crate) const DISABLE: u8 = 6;

    pub(crate) const MULTI_WRITE: u8 = 7;
}

/// The codes of classes.
pub(crate) mod class_code {
    pub(crate) const READ: u8 = 1;

    pub(crate) const WRITE: u8 = 2;

    pub(crate) const GIVE: u8 = 3;

    pub(crate) const TAKE: u8 = 4;

    pub(crate) const ADD: u8 = 5;

    pub(crate) const REMOVE: u8 = 6;

    pub(crate) const ENABLE: u8 = 7;

    pub(crate) const DISABLE: u8 = 8;
}
