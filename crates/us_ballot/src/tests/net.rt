use super::fixtures::Mark;
use crate::copies::copy_message;
use crate::{Appended, BallotMessage, BallotOut, Ballots, is_message};
use std::alloc::Global;
use std::test::Fail;
use us_base::Shape;

/// What is done next. A message is named by its place among those sent.
#[derive(Clone, Copy)]
pub(crate) enum Step {
    Lead(u8),
    Append(u8, u64),
    Come(usize),
    All,
}

/// Three sites and all messages ever sent, each with its sender and the site that it goes to.
#[derive(Drop)]
pub(crate) struct Net {
    alloc: Global,
    sites: Vec<Ballots<Mark>>,
    sent: Vec<(u8, u8, BallotMessage<Mark>)>,
}

fn start(alloc: Global) -> Result<Net, Fail> {
    let shape = Shape { f: 1, parts: 1 };
    let mut sites = Vec::new(alloc);
    sites.push(Ballots::new(alloc, shape, 1)?)?;
    sites.push(Ballots::new(alloc, shape, 2)?)?;
    sites.push(Ballots::new(alloc, shape, 3)?)?;
    Ok(Net {
        alloc,
        sites,
        sent: Vec::new(alloc),
    })
}

fn place(site: u8) -> usize {
    usize::from(site).saturating_sub(1)
}

fn keep(net: &mut Net, from: u8, out: BallotOut<Mark>) -> Result<(), Fail> {
    for (to, message) in out.sends.into_vec() {
        net.sent.push((from, to, message))?;
    }
    Ok(())
}

fn lead(net: &mut Net, site: u8) -> Result<(), Fail> {
    let ballots = net.sites.get_mut(place(site)).ok_or("no such site")?;
    let out = ballots.lead()?;
    keep(net, site, out)
}

fn append(net: &mut Net, site: u8, number: u64) -> Result<(), Fail> {
    let ballots = net.sites.get_mut(place(site)).ok_or("no such site")?;
    match ballots.append(Mark { number })? {
        Appended::In(out) => keep(net, site, out),
        Appended::NotLeader(_) => Err("no leader")?,
        Appended::Full(_) => Err("full")?,
    }
}

fn come(net: &mut Net, at: usize) -> Result<(), Fail> {
    let (from, to, message) = net.sent.get(at).ok_or("no such message")?;
    let (from, to) = (*from, *to);
    let message = copy_message(net.alloc, message)?;
    if !(1..=3).contains(&from) || !is_message(&message) {
        return Err("no message")?;
    }
    let ballots = net.sites.get_mut(place(to)).ok_or("no such site")?;
    let out = ballots.take(from, message)?;
    keep(net, to, out)
}

/// Every message comes once, in the order of sending, those that are sent meanwhile too.
fn all_come(net: &mut Net) -> Result<(), Fail> {
    for at in 0..100 {
        if at < net.sent.len() {
            come(net, at)?;
        }
    }
    Ok(())
}

pub(crate) fn after(alloc: Global, steps: &[Step]) -> Result<Net, Fail> {
    let mut net = start(alloc)?;
    for step in steps {
        match *step {
            Step::Lead(site) => lead(&mut net, site)?,
            Step::Append(site, number) => append(&mut net, site, number)?,
            Step::Come(at) => come(&mut net, at)?,
            Step::All => all_come(&mut net)?,
        }
    }
    Ok(net)
}

/// Whether these are the numbers of the site's chosen entries.
pub(crate) fn has_chosen(net: &Net, site: u8, numbers: &[u64]) -> Result<bool, Fail> {
    let chosen = net.sites.get(place(site)).ok_or("no such site")?.chosen();
    Ok(
        chosen.len() == numbers.len()
            && chosen
                .iter()
                .zip(numbers)
                .all(|(mark, number)| mark.number == *number),
    )
}
