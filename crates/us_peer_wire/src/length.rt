ghost use Rattle.std.specs.Prelude.{◌≡◌, length};
ghost use Rattle.us_base.specs.Shape.{IsShape};
ghost use Rattle.us_value.specs.Lengths.{capped, item_length};
ghost use Rattle.us_peer_wire.specs.Lengths.{op_length, form_length, end_length, message_length, packet_length};
ghost use Rattle.us_peer_wire.specs.Packets.{packet_encoding, PacketFits};

use crate::{Form, Message, OutcomeEnd, Packet};
use us_base::Shape;
use us_fields::{Field, TID_LEN, list_len, vector_len};
use us_value::{Item, Op, answer_len, effect_len};

/// The bytes of a number.
const NUMBER: usize = 8;

/// The bytes of a frame before the message's fields: its length, its version and tag, the sender and the receiver.
const HEAD: usize = 10;

fn item_len(item: &Item) -> usize
    ensures { result ≡ capped (item_length item.now) }
{
    item.id.len().saturating_add(2)
}

fn op_len(op: &Op) -> usize
    ensures { result ≡ capped (op_length op.now) }
{
    match op {
        Op::RegisterWrite { value }
        | Op::SetContains { value }
        | Op::SetAdd { value }
        | Op::SetRemove { value }
        | Op::MultiWrite { value } => value.len().saturating_add(3),
        Op::CounterAdd { .. } => 9,
        Op::RegisterRead
        | Op::CounterRead
        | Op::SetMembers
        | Op::FlagRead
        | Op::FlagEnable
        | Op::FlagDisable
        | Op::MultiRead => 1,
    }
}

fn form_len(form: &Form) -> usize
    ensures { result ≡ capped (form_length form.now) }
{
    match form {
        Form::Answered { answer, effect } => {
            let effect = match effect {
                Some(effect) => effect_len(effect),
                None => 0,
            };
            answer_len(answer).saturating_add(effect).saturating_add(3)
        }
        Form::WritesFull | Form::AnswerFull => 1,
    }
}

fn end_len(end: &OutcomeEnd) -> usize
    ensures { result ≡ capped (end_length end.now) }
{
    match end {
        OutcomeEnd::Commit => 1,
        OutcomeEnd::Abort { item, .. } => item_len(item).saturating_add(1 + TID_LEN),
    }
}

fn message_len(message: &Message, shape: Shape) -> usize
    requires { IsShape shape }
    ensures { result ≡ capped (message_length shape message.now) }
{
    match message {
        Message::Get { item, op, own, .. } => item_len(item)
            .saturating_add(op_len(op))
            .saturating_add(list_len(own.as_slice(), shape))
            .saturating_add(TID_LEN + 1 + NUMBER + vector_len(shape)),
        Message::Version { version } => {
            form_len(&version.form).saturating_add(TID_LEN + 1 + NUMBER)
        }
        Message::Prepare { writes, .. } => {
            list_len(writes.as_slice(), shape).saturating_add(TID_LEN + vector_len(shape))
        }
        Message::Prepared { .. } => TID_LEN + NUMBER,
        Message::Commit { .. } => TID_LEN + vector_len(shape),
        Message::Replicate { txs, .. } => {
            list_len(txs.as_slice(), shape).saturating_add(1 + 2 * NUMBER)
        }
        Message::KnownLocal { .. } => 2 * vector_len(shape),
        Message::Stable { .. } | Message::KnownGlobal { .. } => vector_len(shape),
        Message::Submit { entry } => entry.encoded_len(shape),
        Message::Outcome { outcome } => end_len(&outcome.end).saturating_add(TID_LEN + NUMBER),
        Message::Deliver { pages, .. } => list_len(pages.as_slice(), shape).saturating_add(NUMBER),
        Message::NewBallot { .. } | Message::CatchUp { .. } => NUMBER,
        Message::Promise { tail, .. } => {
            list_len(tail.as_slice(), shape).saturating_add(3 * NUMBER)
        }
        Message::NewState { tail, .. } => {
            list_len(tail.as_slice(), shape).saturating_add(2 * NUMBER)
        }
        Message::Accept { entry, .. } => entry.encoded_len(shape).saturating_add(2 * NUMBER),
        Message::Accepted { .. } => 2 * NUMBER,
        Message::Learn { entries, .. } => {
            list_len(entries.as_slice(), shape).saturating_add(NUMBER)
        }
    }
}

/// How many bytes the frame of a packet has, its length field among them. Where a list is longer than its count can tell, it counts
/// as if the count could, and a length that passes `usize` is answered as its greatest number.
pub fn packet_len(packet: &Packet, shape: Shape) -> usize
    requires { IsShape shape }
    ensures value { result ≡ capped (packet_length shape packet.now) }
    ensures is_frame { PacketFits shape packet.now → result ≡ length (packet_encoding shape packet.now) }
{
    message_len(&packet.message, shape).saturating_add(HEAD)
}
