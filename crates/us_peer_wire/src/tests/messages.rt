use super::fixtures::{
    ALONE, ITEM, NINE, TEN, TID, TOUCHES, VECTOR, WRITES, entry, framed, item, one, packet_of, tid,
    vector, writes,
};
use crate::{
    Actor, Form, Message, Outcome, OutcomeEnd, Packet, Page, Version, decode, encode, packet_len,
};
use std::alloc::Global;
use std::process::Abort;
use std::test::Fail;
use us_base::Vector;
use us_kind::{Items, Memory};
use us_value::{Answer, Effect, Op};

fn get(alloc: Global) -> Result<Message, Memory> {
    Ok(Message::Get {
        tid: tid(5),
        place: 3,
        at: 9,
        snapshot: vector(),
        item: item(alloc)?,
        op: Op::CounterAdd { amount: -2 },
        own: one(alloc, (2, Effect::CounterAdd { amount: 1 }))?,
    })
}

fn version(form: Form) -> Message {
    Message::Version {
        version: Version {
            tid: tid(5),
            place: 3,
            at: 9,
            form,
        },
    }
}

fn replicate(alloc: Global) -> Result<Message, Memory> {
    let mut txs = one(alloc, (tid(5), vector(), Items::new(alloc)))?;
    txs.push((tid(5), vector(), writes(alloc)?))?;
    Ok(Message::Replicate {
        origin: 1,
        lo: 9,
        hi: 10,
        txs,
    })
}

fn deliver(alloc: Global) -> Result<Message, Memory> {
    let mut pages = one(alloc, Page::Skip)?;
    pages.push(Page::Holds {
        tid: tid(5),
        vector: vector(),
        writes: writes(alloc)?,
    })?;
    Ok(Message::Deliver { first: 9, pages })
}

fn outcome(end: OutcomeEnd) -> Message {
    Message::Outcome {
        outcome: Outcome {
            tid: tid(5),
            slot: 9,
            end,
        },
    }
}

/// The frame is none where it is cut at any byte, nor with a byte behind its last field.
fn is_whole(rt: &impl Abort, alloc: Global, frame: &[u8]) -> Result<(), Memory> {
    for end in 0..frame.len() {
        assert!(rt; packet_of(alloc, &frame[..end])?.is_none());
    }
    let mut longer = Vec::from_slice(alloc, frame)?;
    longer.push(0)?;
    assert!(rt; packet_of(alloc, longer.as_slice())?.is_none());
    Ok(())
}

/// Whether the frame is read as the packet, of which a copy is the same.
fn is_read(alloc: Global, frame: &[u8], sent: &Packet) -> Result<bool, Memory> {
    match packet_of(alloc, frame)? {
        Some(packet) => Ok(packet.copy()? == *sent),
        None => Ok(false),
    }
}

/// Whether the packet that the frame is has this frame, and its length.
fn is_written(alloc: Global, frame: &[u8]) -> Result<bool, Memory> {
    match decode(alloc, frame, ALONE) {
        Ok(packet) => {
            let again = encode(alloc, &packet, ALONE)?;
            Ok(again.as_slice() == frame && packet_len(&packet, ALONE) == frame.len())
        }
        Err(_) => Ok(false),
    }
}

/// The message and the frame with these fields are each other's.
fn is_message(
    rt: &impl Abort,
    alloc: Global,
    number: u8,
    parts: &[&[u8]],
    message: Message,
) -> Result<(), Memory> {
    let sent = Packet {
        from: Actor { site: 1, actor: 1 },
        to: Actor { site: 1, actor: 0 },
        message,
    };
    let frame = framed(alloc, number, parts)?;
    assert!(rt; is_read(alloc, frame.as_slice(), &sent)?);
    assert!(rt; is_written(alloc, frame.as_slice())?);
    is_whole(rt, alloc, frame.as_slice())
}

#[test]
fn messages_of_a_site_are_read_and_written(rt: HostRuntime) -> Result<(), Fail> {
    let alloc = rt.alloc();
    let op = &[4, 255, 255, 255, 255, 255, 255, 255, 254];
    let own = &[0, 1, 2, 2, 0, 0, 0, 0, 0, 0, 0, 1];
    is_message(
        &rt,
        alloc,
        1,
        &[TID, &[3], NINE, VECTOR, ITEM, op, own],
        get(alloc)?,
    )?;
    let answered = Form::Answered {
        answer: Answer::Nothing,
        effect: Some(Effect::Enable),
    };
    is_message(
        &rt,
        alloc,
        2,
        &[TID, &[3], NINE, &[0, 1, 0, 1, 5]],
        version(answered),
    )?;
    is_message(
        &rt,
        alloc,
        2,
        &[TID, &[3], NINE, &[7]],
        version(Form::WritesFull),
    )?;
    is_message(
        &rt,
        alloc,
        2,
        &[TID, &[3], NINE, &[8]],
        version(Form::AnswerFull),
    )?;
    let prepare = Message::Prepare {
        tid: tid(5),
        snapshot: vector(),
        writes: writes(alloc)?,
    };
    is_message(&rt, alloc, 3, &[TID, VECTOR, WRITES], prepare)?;
    is_message(
        &rt,
        alloc,
        4,
        &[TID, NINE],
        Message::Prepared { tid: tid(5), ts: 9 },
    )?;
    let commit = Message::Commit {
        tid: tid(5),
        vector: vector(),
    };
    is_message(&rt, alloc, 5, &[TID, VECTOR], commit)?;
    Ok(())
}

#[test]
fn messages_of_partitions_are_read_and_written(rt: HostRuntime) -> Result<(), Fail> {
    let alloc = rt.alloc();
    let txs: &[&[u8]] = &[
        &[1],
        NINE,
        TEN,
        &[0, 2],
        TID,
        VECTOR,
        &[0, 0],
        TID,
        VECTOR,
        WRITES,
    ];
    is_message(&rt, alloc, 6, txs, replicate(alloc)?)?;
    let known_local = Message::KnownLocal {
        known: vector(),
        horizon: Vector::zero(),
    };
    is_message(&rt, alloc, 7, &[VECTOR, &[0; 16]], known_local)?;
    is_message(
        &rt,
        alloc,
        8,
        &[VECTOR],
        Message::Stable { vector: vector() },
    )?;
    is_message(
        &rt,
        alloc,
        9,
        &[VECTOR],
        Message::KnownGlobal { vector: vector() },
    )?;
    is_message(
        &rt,
        alloc,
        10,
        &[TID, VECTOR, TOUCHES, WRITES],
        Message::Submit {
            entry: entry(alloc)?,
        },
    )?;
    is_message(
        &rt,
        alloc,
        11,
        &[TID, NINE, &[1]],
        outcome(OutcomeEnd::Commit),
    )?;
    let abort = OutcomeEnd::Abort {
        named: tid(5),
        item: item(alloc)?,
    };
    is_message(
        &rt,
        alloc,
        11,
        &[TID, NINE, &[2], TID, ITEM],
        outcome(abort),
    )?;
    is_message(
        &rt,
        alloc,
        12,
        &[NINE, &[0, 2, 0, 1], TID, VECTOR, WRITES],
        deliver(alloc)?,
    )?;
    Ok(())
}

#[test]
fn messages_of_certifiers_are_read_and_written(rt: HostRuntime) -> Result<(), Fail> {
    let alloc = rt.alloc();
    is_message(&rt, alloc, 13, &[NINE], Message::NewBallot { ballot: 9 })?;
    let promise = Message::Promise {
        ballot: 9,
        accepted: 9,
        base: 10,
        tail: one(alloc, entry(alloc)?)?,
    };
    is_message(
        &rt,
        alloc,
        14,
        &[NINE, NINE, TEN, &[0, 1], TID, VECTOR, TOUCHES, WRITES],
        promise,
    )?;
    let new_state = Message::NewState {
        ballot: 9,
        base: 10,
        tail: Items::new(alloc),
    };
    is_message(&rt, alloc, 15, &[NINE, TEN, &[0, 0]], new_state)?;
    let accept = Message::Accept {
        ballot: 9,
        slot: 10,
        entry: entry(alloc)?,
    };
    is_message(
        &rt,
        alloc,
        16,
        &[NINE, TEN, TID, VECTOR, TOUCHES, WRITES],
        accept,
    )?;
    let accepted = Message::Accepted {
        ballot: 9,
        length: 10,
    };
    is_message(&rt, alloc, 17, &[NINE, TEN], accepted)?;
    is_message(&rt, alloc, 18, &[NINE], Message::CatchUp { length: 9 })?;
    let learn = Message::Learn {
        first: 9,
        entries: one(alloc, entry(alloc)?)?,
    };
    is_message(
        &rt,
        alloc,
        19,
        &[NINE, &[0, 1], TID, VECTOR, TOUCHES, WRITES],
        learn,
    )?;
    Ok(())
}
