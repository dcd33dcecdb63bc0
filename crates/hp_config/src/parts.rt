//! What a platform file of the right shape holds, before its rules are looked at.

use hp_model::{Delivery, Hosts, Platform, Stalls, VoiceKind};
use std::marker::Model;

/// The numbers of the platform's table.
#[derive(Clone, Copy)]
pub struct Sizes {
    pub low_memory: u32,
    pub tseg_mib: u32,
    pub features: u32,
    pub polls: u32,
    pub turns: u32,
}

/// What may be absent in the platform's table.
#[derive(Clone, Copy)]
pub struct Switches {
    pub modern: bool,
    pub default_smram: bool,
    pub x2apic: bool,
    pub ext_tseg: bool,
    /// None where its name is none of a delivery.
    pub delivery: Option<Delivery>,
}

/// The platform's table.
#[derive(Drop)]
pub struct Machine {
    pub platform: Platform,
    /// Whether `delivery` names one. Where it doesn't, the platform's is prompt.
    pub names_delivery: bool,
}

/// One agent's table.
#[derive(Drop)]
pub struct AgentRow {
    pub cpu: u32,
    /// None where a step of its script isn't in the grammar.
    pub kind: Option<VoiceKind>,
}

/// The agents' tables, in the order of the file.
#[derive(Drop)]
pub struct AgentRows(pub Vec<AgentRow>);

impl Model for AgentRows {
    ghost use Rattle.std.specs.Prelude.{List};
    ghost use Rattle.hp_config.specs.declared.parts.AgentRow.{AgentRow};

    ghost Value = { List AgentRow };

    ghost view = { λ s. s.0.items };
}

/// The whole file.
#[derive(Drop)]
pub struct Parts {
    pub machine: Machine,
    pub hosts: Hosts,
    pub stalls: Stalls,
    pub agents: AgentRows,
}
