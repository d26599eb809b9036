use super::fixtures::{count, item, one, pair, past, read_none, read_ops, session, tid, wrote};
use crate::Report;
use std::alloc::Global;
use us_exec::{Done, Entry, Execution, Link, Loose, LooseEnd, RefusedRequest, WaitingRequest};
use us_kind::{Items, Memory};

fn strong_ops(alloc: Global) -> Result<Items<Done>, Memory> {
    let first = wrote(alloc, item(alloc, 255, &[0, 175])?, &[13, 222])?;
    let second = read_none(item(alloc, 9, &[127])?);
    pair(alloc, first, second)
}

fn strong_entry(alloc: Global) -> Result<Entry, Memory> {
    let counts = [
        count(session(1, 1, 1), 2),
        count(session(2, 1, 1), 0),
        count(session(3, 2, 7), 11),
    ];
    Ok(Entry {
        tid: tid(3, 2, 4611686018427387904),
        session: session(3, 2, 7),
        number: 12,
        strong: true,
        ops: strong_ops(alloc)?,
        past: past(alloc, &counts)?,
    })
}

fn open_one(alloc: Global) -> Result<Loose, Memory> {
    Ok(Loose {
        tid: tid(1, 2, 2),
        session: session(1, 2, 1),
        end: LooseEnd::Open,
        ops: read_ops(alloc)?,
        past: past(alloc, &[count(session(1, 1, 1), 1)])?,
    })
}

fn left_one(alloc: Global) -> Result<Loose, Memory> {
    Ok(Loose {
        tid: tid(2, 1, 5),
        session: session(2, 1, 4),
        end: LooseEnd::Left,
        ops: Items::new(alloc),
        past: past(alloc, &[count(session(1, 1, 1), 0)])?,
    })
}

fn aborted_one(alloc: Global) -> Result<Loose, Memory> {
    Ok(Loose {
        tid: tid(3, 1, 9),
        session: session(3, 1, 2),
        end: LooseEnd::Aborted {
            named: tid(1, 2, 6),
            item: item(alloc, 7, &[190, 3])?,
        },
        ops: Items::new(alloc),
        past: past(alloc, &[count(session(2, 1, 4), 5)])?,
    })
}

fn loose_ones(alloc: Global) -> Result<Items<Loose>, Memory> {
    let mut loose = pair(alloc, open_one(alloc)?, left_one(alloc)?)?;
    loose.push(aborted_one(alloc)?)?;
    Ok(loose)
}

fn every_line_execution(alloc: Global) -> Result<Execution, Memory> {
    let link = Link {
        session: session(1, 2, 3),
        from: session(3, 1, 1),
        count: 7,
    };
    Ok(Execution {
        entries: one(alloc, strong_entry(alloc)?)?,
        loose: loose_ones(alloc)?,
        links: one(alloc, link)?,
    })
}

// Each line once and more.
pub(crate) fn every_line(alloc: Global) -> Result<Report, Memory> {
    let refusal = RefusedRequest {
        session: session(1, 1, 1),
        at: 65,
        number: 9,
    };
    let waiting = WaitingRequest {
        session: session(1, 2, 1),
        at: 5,
    };
    Ok(Report {
        execution: every_line_execution(alloc)?,
        refused: one(alloc, refusal)?,
        waiting: one(alloc, waiting)?,
    })
}

pub(crate) const EVERY_LINE: &str = "t 3.2.4611686018427387904 3.2.7 12 strong 1.1.1=2 3.2.7=11
o 255:00af write:0dde done
o 9:7f read none
l 1.2.2 1.2.1 open 1.1.1=1
o 1:61 read value:78
l 2.1.5 2.1.4 left -
l 3.1.9 3.1.2 aborted:1.2.6:7:be03 2.1.4=5
k 1.2.3 3.1.1 7
x 1.1.1 65 9
w 1.2.1 5
committed 1 strong 1 aborted 1 loose 3 links 1 refused 1 waiting 1
";

pub(crate) const EVERY_LINE_SHORT: &str =
    "committed 1 strong 1 aborted 1 loose 3 links 1 refused 1 waiting 1\n";
