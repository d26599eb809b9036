ghost use Rattle.std.specs.Prelude.{◌≡◌, ◌≤◌, ◌-◌, Some, slice_get, length, IfOk};
ghost use Rattle.toml.specs.View.{table_view};
ghost use Rattle.us_config.specs.Configs.{IsConfig};
ghost use Rattle.us_config.specs.Values.{Says};
ghost use Rattle.us_config.specs.Whole.{config_said};
ghost use Rattle.us_config.specs.Document.{config_in};

use crate::assembly::assembled;
use crate::document::parsed;
use crate::fault::{Key, ReadFault};
use crate::node::{NodePlan, copy_of_texts, node_plan};
use crate::shape::shape_of;
use crate::space::spaces_of;
use crate::tables::{check_keys, member_at};
use std::alloc::Global;
use toml::Table;
use us_base::Shape;
use us_conflict::Conflicts;
use us_edge::Plan;
use us_kind::Memory;
use us_value::Catalog;

/// What a configuration says of a store.
#[derive(Drop)]
pub struct Config {
    /// How many sites and partitions there are.
    pub shape: Shape,
    /// The spaces and their kinds.
    pub catalog: Catalog,
    /// The classes of operations on one item that conflict.
    pub conflicts: Conflicts,
    /// The addresses and times of the nodes.
    pub plan: NodePlan,
}

impl Config {
    /// A copy of the configuration.
    pub fn copy(&self) -> Result<Config, Memory>
        ensures { IfOk result (λ copy. copy ≡ self.now) }
    {
        Ok(Config {
            shape: self.shape,
            catalog: self.catalog.copy()?,
            conflicts: self.conflicts.copy()?,
            plan: self.plan.copy()?,
        })
    }

    /// What the node of a site, from 1, is to link with. There are that many clients' addresses.
    pub fn plan_for(&self, site: u8) -> Result<Plan, Memory>
        requires first { 1 ≤ site }
        requires clients { site ≤ length self.now.plan.clients }
        ensures site { IfOk result (λ plan. plan.site ≡ site) }
        ensures clients { IfOk result (λ plan. slice_get self.now.plan.clients (site - 1) ≡ Some plan.clients) }
        ensures peers { IfOk result (λ plan. plan.peers ≡ self.now.plan.peers) }
    {
        let clients = &self.plan.clients.as_slice()[usize::from(site) - 1];
        Ok(Plan {
            site,
            clients: clients.copy()?,
            peers: copy_of_texts(&self.plan.peers)?,
        })
    }
}

/// The configuration that a TOML text says.
///
/// # Errors
///
/// The first fault: `NotToml` at `top`; then another key than `sites`, `partitions`, `space` and `node`; `sites`;
/// `partitions`; each space in turn; `node`. Or `Memory`.
pub fn read(alloc: Global, text: &[u8]) -> Result<Config, ReadFault>
    ensures means { Says result (config_said text.now) }
    ensures config { IfOk result (λ config. IsConfig config) }
{
    let table = parsed(alloc, text)?;
    config_of(alloc, &table)
}

#[tactic(auto, unfolding(crate::specs::Document::config_in))]
fn config_of(alloc: Global, table: &Table) -> Result<Config, ReadFault>
    ensures exact { Says result (config_in (table_view table.now)) }
    ensures config { IfOk result (λ config. IsConfig config) }
{
    check_keys(Key::Top, &["sites", "partitions", "space", "node"], table)?;
    let shape = shape_of(table)?;
    let spaces = spaces_of(alloc, member_at(table, "space"))?;
    let plan = node_plan(alloc, shape.sites(), member_at(table, "node"))?;
    Ok(assembled(alloc, shape, spaces.as_slice(), plan)?)
}
