//! One session of a coordinator: each of its calls is the machine's rule.
#![tactic(auto)]

mod answer;
mod codec;
mod placement;
mod running;
mod session;
mod stream;

pub use answer::{take_prepared, take_version};
pub use codec::encoded;
pub use running::run;
pub use session::{new_stream, waits_for_nothing};
pub use stream::{close, take_bytes};
