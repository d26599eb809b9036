ghost use Rattle.std.specs.Prelude.{◌≡◌};
ghost use Rattle.us_wire.specs.Whole.{opened};

use crate::{take_u8_between, take_u32};

/// The version that each frame names.
pub const VERSION: u8 = 1;

/// The tag of a whole frame and the place of its fields: its length field has to tell how many bytes follow it, and
/// its version has to be 1.
#[tactic(auto, unfolding(crate::specs::Whole::opened))]
pub fn open_frame(frame: &[u8]) -> Option<(u8, usize)>
    ensures { result ≡ opened frame.now }
{
    let (rest, at) = take_u32(frame, 0)?;
    if at + rest as usize != frame.len() {
        return None;
    }
    let (_version, at) = take_u8_between(frame, at, VERSION, VERSION)?;
    take_u8_between(frame, at, 0, u8::MAX)
}
