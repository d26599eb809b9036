ghost use Rattle.std.specs.Prelude.{◌≡◌, ◌+◌, ◌<◌, ◌^◌, IfOk, OnOk, length};
ghost use Rattle.us_config.specs.Whole.{config_said};
ghost use Rattle.us_schedule.specs.Text.{text_lines};
ghost use Rattle.us_world.specs.Lines.{AllBuilt};
ghost use Rattle.unistore.specs.Schedule.{Takes, configured_by, store_of, settings_of, is_performed, reason_of, said, schedule_behind, schedule_of};
ghost use Rattle.us_base.specs.Shape.{IsShape};
ghost use Rattle.us_order.specs.Premise.{HasOnePartition};
ghost use Rattle.unistore.specs.Built.{IsBuiltStore, IsBuiltSchedule};

use crate::Reason;
use std::alloc::Global;
use us_base::Shape;
use us_config::{Config, ReadFault};
use us_kind::{Items, Memory};
use us_model::Settings;
use us_schedule::{Line, LineFault, next_line, read_line, split_text};
use us_world::Numbered;

/// What a text asks for: how the store is configured, and the lines to be performed, in order.
#[derive(Drop)]
pub struct Script {
    pub config: Config,
    pub lines: Items<Numbered>,
}

/// A refused line of the input, counted from 1.
#[derive(Clone, Copy, Debug, PartialEq, Eq)]
pub struct Refusal {
    pub line: u64,
    pub reason: Reason,
}

/// What a text says.
#[derive(Drop)]
pub enum Schedule {
    /// It is refused before any line is performed.
    Refused {
        refusal: Refusal,
    },
    /// What it asks for, and the refusal of the line behind its lines, if one is refused.
    Read {
        script: Script,
        refused: Option<Refusal>,
    },
}

/// What the text before the separator says.
#[derive(Drop)]
pub enum Configured {
    /// A store that is built.
    Store { config: Config },
    /// It is refused.
    Refused { refusal: Refusal },
}

/// Why a line brings nothing.
#[derive(Clone, Copy, Debug, PartialEq, Eq)]
pub enum LineStop {
    /// It is refused.
    Refused { reason: Reason },
    /// Want of memory.
    Memory,
}

impl From<Memory> for LineStop {
    ghost use Rattle.unistore.specs.declared.schedule.LineStop.TheVariants as stop;

    ghost from_gives = { λ _ e. e ≡ stop.Memory };

    fn from(_memory: Memory) -> LineStop {
        LineStop::Memory
    }
}

impl Script {
    /// What the store's actors are configured with, and the lines.
    pub fn into_parts(self) -> (Settings, Items<Numbered>)
        ensures settings { result.0 ≡ settings_of self.config }
        ensures lines { result.1 ≡ self.lines }
    {
        let Script { config, lines } = self;
        let Config {
            shape,
            catalog,
            conflicts,
            plan: _,
        } = config;
        let settings = Settings {
            shape,
            catalog,
            conflicts,
        };
        (settings, lines)
    }
}

/// Reads the text of a schedule, in time that grows with its length.
#[tactic(auto, unfolding(crate::specs::Schedule::schedule_of))]
pub fn read_schedule(alloc: Global, text: &[u8]) -> Result<Schedule, Memory>
    ensures read { IfOk result (λ schedule. schedule ≡ schedule_of text.now) }
    ensures built { IfOk result IsBuiltSchedule }
{
    let parts = match split_text(text) {
        Ok(parts) => parts,
        Err(missing) => {
            return Ok(Schedule::Refused {
                refusal: Refusal {
                    line: missing.line,
                    reason: Reason::NoSeparator,
                },
            });
        }
    };
    match read_config(alloc, parts.before)? {
        Configured::Store { config } => { read_behind(alloc, config, parts.behind, parts.line + 1) }
        Configured::Refused { refusal } => Ok(Schedule::Refused { refusal }),
    }
}

/// Reads the configuration.
fn read_config(alloc: Global, text: &[u8]) -> Result<Configured, Memory>
    ensures said { IfOk result (λ said. said ≡ configured_by (config_said text.now)) }
    ensures built { IfOk result IsBuiltStore }
{
    match us_config::read(alloc, text) {
        Ok(config) => Ok(store_of(config)),
        Err(ReadFault::Refused { key, fault }) => Ok(Configured::Refused {
            refusal: Refusal {
                line: 0,
                reason: Reason::Config { key, fault },
            },
        }),
        Err(ReadFault::Memory) => Err(Memory),
    }
}

/// A store of one site and one partition; another one isn't built yet.
fn store_of(config: Config) -> Configured
    ensures store { result ≡ store_of config }
    ensures built { IsBuiltStore result }
{
    if config.shape.f == 0 && config.shape.parts == 1 {
        return Configured::Store { config };
    }
    Configured::Refused {
        refusal: Refusal {
            line: 0,
            reason: Reason::NotBuilt,
        },
    }
}

/// Reads the lines behind the separator up to the first refused one. The first line has this number.
fn read_behind(alloc: Global, config: Config, text: &[u8], first: u64) -> Result<Schedule, Memory>
    requires store { HasOnePartition (settings_of config) }
    requires number { first + length (text_lines text.now) < 2 ^ 64 }
    ensures read { IfOk result (λ schedule. schedule ≡ schedule_behind config first (text_lines text.now)) }
    ensures built { IfOk result IsBuiltSchedule }
{
    let shape = config.shape;
    let mut lines = Items::new(alloc);
    let mut number = first;
    let mut rest = text;
    while let Some((line, behind)) = next_line(rest) {
        match take_line(alloc, shape, line, number, &mut lines) {
            Ok(()) => {}
            Err(LineStop::Refused { reason }) => {
                let refused = Some(Refusal {
                    line: number,
                    reason,
                });
                let script = Script { config, lines };
                return Ok(Schedule::Read { script, refused });
            }
            Err(LineStop::Memory) => return Err(Memory),
        }
        number += 1;
        rest = behind;
    }
    Ok(Schedule::Read {
        script: Script { config, lines },
        refused: None,
    })
}

/// Adds what the line of this number brings, which is nothing where it is blank or a comment.
#[tactic(auto, using(crate::proofs::Built::joined))]
fn take_line(
    alloc: Global,
    shape: Shape,
    text: &[u8],
    number: u64,
    lines: &mut Items<Numbered>,
) -> Result<(), LineStop>
    requires { IsShape shape }
    ensures taken { Takes result number lines.old lines.new (said shape text.now) }
    ensures built { AllBuilt lines.old → AllBuilt lines.new }
{
    match read_line(alloc, text, shape) {
        Ok(None) => Ok(()),
        Ok(Some(line)) => {
            if !is_performed(&line) {
                return Err(LineStop::Refused {
                    reason: Reason::NotBuilt,
                });
            }
            lines.push(Numbered { number, line })?;
            Ok(())
        }
        Err(LineFault::Memory) => Err(LineStop::Memory),
        Err(fault) => Err(LineStop::Refused {
            reason: reason_of(fault),
        }),
    }
}

/// The reason why the grammar refuses a line.
fn reason_of(fault: LineFault) -> Reason
    ensures { result ≡ reason_of fault }
{
    match fault {
        LineFault::BadWord => Reason::BadWord,
        LineFault::BadNumber => Reason::BadNumber,
        LineFault::BadHex => Reason::BadHex,
        LineFault::OutOfRange => Reason::OutOfRange,
        LineFault::Memory => Reason::NotBuilt,
    }
}

fn is_performed(line: &Line) -> bool
    ensures { result ≡ is_performed line.now }
{
    match line {
        Line::Open { .. }
        | Line::Bytes { .. }
        | Line::Close { .. }
        | Line::Deliver { .. }
        | Line::Flush { .. } => true,
        _ => false,
    }
}
