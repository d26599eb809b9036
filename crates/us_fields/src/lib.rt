//! The fields that frames of clients and of peers share: how each is encoded and read.
#![tactic(auto)]

mod codes;
mod effect;
mod encodable;
mod fault;
mod field;
mod laws;
mod list;
mod order;
mod read;
mod tuple;
mod values;
mod write;

pub use effect::{put_writes, take_writes};
pub use encodable::answer_fits;
pub use fault::DecodeFault;
pub use field::Field;
pub use laws::{answers_are_as_long, fields_are_read_as_encoded, writes_are_as_long};
pub use list::{copies_of, list_len, put_list, take_list};
pub use order::{Order, are_in_order};
pub use read::{take_answer, take_item, take_op};
pub use tuple::{TID_LEN, found, vector_len};
pub use write::{frame_of, put_answer, put_item, put_op};
