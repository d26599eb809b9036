ghost use Rattle.std.specs.Prelude.{◌≡◌, ◌+◌, ◌^◌, ◌<◌, ◌≤◌, [], length, option_map, IfOk};
ghost use Rattle.toml.specs.View.{view, table_view, array_view};
ghost use Rattle.us_config.specs.Values.{Says, or_wrong, gathered, each_by};
ghost use Rattle.us_config.specs.Configs.{HasAddresses};
ghost use Rattle.us_config.specs.Meaning.{default_addresses, address_for};
ghost use Rattle.us_config.specs.Node.{addresses_or, plan_in, node_plan_of};

use crate::address::is_address;
use crate::fault::{Key, ReadFault, wrong_value};
use crate::tables::{check_keys, member_at};
use crate::values::{Range, whole_number};
use std::alloc::Global;
use toml::value::Array;
use toml::{Table, Value};
use us_edge::Text;
use us_kind::{Items, Memory};

/// The addresses of a store's nodes, and when a node ticks and suspects.
#[derive(Drop)]
pub struct NodePlan {
    /// For each site, the address at which other sites reach it.
    pub peers: Items<Text>,
    /// For each site, the address at which clients reach it.
    pub clients: Items<Text>,
    /// Clock units from one tick to the next.
    pub tick: u64,
    /// Clock units without bytes after which another site is suspected.
    pub suspect: u64,
}

impl NodePlan {
    /// A copy of the plan.
    pub fn copy(&self) -> Result<NodePlan, Memory>
        ensures { IfOk result (λ copy. copy ≡ self.now) }
    {
        Ok(NodePlan {
            peers: copy_of_texts(&self.peers)?,
            clients: copy_of_texts(&self.clients)?,
            tick: self.tick,
            suspect: self.suspect,
        })
    }
}

/// A copy of the texts.
pub fn copy_of_texts(texts: &Items<Text>) -> Result<Items<Text>, Memory>
    ensures { IfOk result (λ copy. copy ≡ texts.now) }
{
    let mut copy = Items::new(texts.allocator());
    for text in texts.as_slice() {
        copy.push(text.copy()?)?;
    }
    Ok(copy)
}

/// The port before the first site's for other sites, where the configuration names no addresses.
const PEER_PORT: u16 = 7100;

/// The port before the first site's for clients.
const CLIENT_PORT: u16 = 7200;

/// The clock units that a configuration may name.
const UNITS: Range = Range {
    low: 1,
    high: 1_000_000_000,
};

/// The plan of a configuration's nodes, from the value of its key `node`, where it has one.
///
/// # Errors
///
/// The first of: the value no table; another key; `peers`, `clients`, `tick`, `suspect`; or `Memory`.
pub fn node_plan(alloc: Global, sites: u8, value: Option<&Value>) -> Result<NodePlan, ReadFault>
    requires { sites ≤ 9 }
    ensures exact { Says result (node_plan_of sites (option_map (λ value. view value.now) value.entry)) }
    ensures addresses { IfOk result (λ plan. HasAddresses sites plan) }
{
    let Some(value) = value else {
        return plan_of(alloc, sites, &Table::new(alloc));
    };
    let Some(table) = value.as_table() else {
        return Err(wrong_value(Key::Node));
    };
    plan_of(alloc, sites, table)
}

#[tactic(auto, unfolding(crate::specs::Node::plan_in))]
fn plan_of(alloc: Global, sites: u8, table: &Table) -> Result<NodePlan, ReadFault>
    requires { sites ≤ 9 }
    ensures exact { Says result (plan_in sites (table_view table.now)) }
    ensures addresses { IfOk result (λ plan. HasAddresses sites plan) }
{
    check_keys(Key::Node, &["peers", "clients", "tick", "suspect"], table)?;
    let peers = member_at(table, "peers");
    let peers = addresses(alloc, Key::NodePeers, PEER_PORT, sites, peers)?;
    let clients = member_at(table, "clients");
    let clients = addresses(alloc, Key::NodeClients, CLIENT_PORT, sites, clients)?;
    let tick = whole_number(Key::NodeTick, UNITS, 50, member_at(table, "tick"))?;
    let suspect = whole_number(Key::NodeSuspect, UNITS, 10_000, member_at(table, "suspect"))?;
    Ok(NodePlan {
        peers,
        clients,
        tick,
        suspect,
    })
}

#[tactic(auto, using(crate::proofs::Lists::default_count))]
fn addresses(
    alloc: Global,
    key: Key,
    port: u16,
    sites: u8,
    value: Option<&Value>,
) -> Result<Items<Text>, ReadFault>
    requires { port + sites < 2 ^ 16 }
    ensures exact { Says result (addresses_or key port sites (option_map (λ value. view value.now) value.entry)) }
    ensures count { IfOk result (λ addresses. length addresses ≡ sites) }
{
    let Some(value) = value else {
        return Ok(local_addresses(alloc, port, sites)?);
    };
    let Some(array) = value.as_array() else {
        return Err(wrong_value(key));
    };
    let addresses = listed_addresses(alloc, key, array)?;
    if addresses.len() != usize::from(sites) {
        return Err(wrong_value(key));
    }
    Ok(addresses)
}

fn local_addresses(alloc: Global, port: u16, sites: u8) -> Result<Items<Text>, Memory>
    requires { port + sites < 2 ^ 16 }
    ensures { IfOk result (λ addresses. addresses ≡ default_addresses port sites) }
{
    let mut addresses = Items::new(alloc);
    for site in 0..sites {
        let port = port + u16::from(site) + 1;
        addresses.push(Text::of(format!(in alloc; "127.0.0.1:{port}")?))?;
    }
    Ok(addresses)
}

fn listed_addresses(alloc: Global, key: Key, array: &Array) -> Result<Items<Text>, ReadFault>
    ensures { Says result (gathered (each_by key address_for) [] (array_view array.now)) }
{
    let mut addresses = Items::new(alloc);
    for value in array {
        addresses.push(address_of(alloc, key, value)?)?;
    }
    Ok(addresses)
}

fn address_of(alloc: Global, key: Key, value: &Value) -> Result<Text, ReadFault>
    ensures { Says result (or_wrong key (address_for (view value.now))) }
{
    match value.as_str() {
        Some(text) if is_address(text) => Ok(Text::of(String::from_str(alloc, text)?)),
        _ => Err(wrong_value(key)),
    }
}
