//! The rules of a platform file past those of its platform.

ghost use Rattle.std.specs.Prelude.{◌≡◌, ◌==◌, nat_lt, option_map};
ghost use Rattle.std.specs.List.{list_all, list_any};
ghost use Rattle.hp_config.specs.Rules.{place_of, hosts_fit, stalls_fit, no_two, agents_fit, steps_fit};
ghost use Rattle.hp_config.specs.Reading.{platform_fault as fault_of_platform, later_fault as later_rule, fault_of as first_rule};

use crate::parts::{AgentRow, Parts};
use hp_model::{Actor, HostEvent, Platform, Rule, Stall, fits};

fn cpu_of(actor: Actor) -> u32
    ensures { result ≡ place_of actor }
{
    match actor {
        Actor::Insert(cpu) | Actor::Remove(cpu) | Actor::Cpu(cpu) | Actor::Smi(cpu) => cpu,
    }
}

fn are_fitting_hosts(hosts: &[HostEvent], count: usize) -> bool
    ensures { result ≡ hosts_fit count hosts.now }
{
    hosts
        .iter()
        .all(|host| (cpu_of(host.actor) as usize) < count)
}

fn are_fitting_stalls(stalls: &[Stall], count: usize) -> bool
    ensures { result ≡ stalls_fit count stalls.now }
{
    stalls.iter().all(|stall| (stall.cpu as usize) < count && stall.from <= stall.to)
}

fn is_among(cpu: u32, agents: &[AgentRow]) -> bool
    ensures { result ≡ list_any (λ b. b.cpu == cpu) agents.now }
{
    agents.iter().any(|other| other.cpu == cpu)
}

/// Whether no processor has two agents. Ends early: among more agents than processors the first ones show it.
fn are_single(agents: &[AgentRow]) -> bool
    ensures { result ≡ no_two agents.now }
{
    let mut rest = agents;
    while let [first, others @ ..] = rest {
        if is_among(first.cpu, others) {
            return false;
        }
        rest = others;
    }
    true
}

fn are_below(agents: &[AgentRow], count: usize) -> bool
    ensures { result ≡ list_all (λ a. nat_lt a.cpu count) agents.now }
{
    agents.iter().all(|agent| (agent.cpu as usize) < count)
}

fn are_fitting_agents(agents: &[AgentRow], count: usize) -> bool
    ensures { result ≡ agents_fit count agents.now }
{
    are_below(agents, count) && are_single(agents)
}

fn have_fitting_steps(agents: &[AgentRow]) -> bool
    ensures { result ≡ steps_fit agents.now }
{
    agents.iter().all(|agent| agent.kind.is_some())
}

/// The first of rules 2 to 11 that the platform breaks.
#[tactic(auto, unfolding(crate::specs::Reading::platform_fault))]
fn platform_fault(platform: &Platform) -> Option<Rule>
    ensures { option_map (λ rule. rule.0) result ≡ fault_of_platform platform.now }
{
    match fits(platform) {
        Ok(()) => None,
        Err(rule) => Some(rule),
    }
}

/// The first of rules 11 to 15 that fails, where rule 11 is that `delivery` names one.
#[tactic(auto, unfolding(crate::specs::Reading::later_fault))]
fn later_fault(parts: &Parts) -> Option<Rule>
    ensures { option_map (λ rule. rule.0) result ≡ later_rule parts.now }
{
    let count = parts.machine.platform.apic.0.len();
    if !parts.machine.names_delivery {
        return Some(Rule(11));
    }
    if !are_fitting_hosts(parts.hosts.0.as_slice(), count) {
        return Some(Rule(12));
    }
    if !are_fitting_stalls(parts.stalls.0.as_slice(), count) {
        return Some(Rule(13));
    }
    if !are_fitting_agents(parts.agents.0.as_slice(), count) {
        return Some(Rule(14));
    }
    if !have_fitting_steps(parts.agents.0.as_slice()) {
        return Some(Rule(15));
    }
    None
}

/// The first of rules 2 to 15 that fails.
pub fn fault_of(parts: &Parts) -> Option<Rule>
    ensures { option_map (λ rule. rule.0) result ≡ first_rule parts.now }
{
    match platform_fault(&parts.machine.platform) {
        Some(rule) => Some(rule),
        None => later_fault(parts),
    }
}
