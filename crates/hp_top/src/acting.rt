//! The actors of a file's turns, one by one.

ghost use Rattle.std.specs.Prelude.{◌≡◌, ◌≤◌, ◌+◌, ◌<◌, ℕ, ◌∷◌, ◌++◌, [], None, IfSome, length};
ghost use Rattle.hp_model.specs.Platform.{IsFit};
ghost use Rattle.hp_model.specs.Schedule.{cpus_of, hosts_of as of_turn, turn_actor as actor_in};
ghost use Rattle.hp_top.specs.Actors.{IsAhead, actors_from, to_come};
ghost use Rattle.hp_top.specs.Stalls.{IsTracking};
ghost use Rattle.hp_top.specs.Turns.{Rises, at_turn, due, past, turn_of};

use crate::stalling::Stalled;
use hp_model::{Actor, Delivery, File, HostEvent};
use std::marker::Model;

/// The first of these events if it is due at this turn, and those after it.
#[tactic(auto, using(crate::proofs::Turning::host_events))]
fn next_host(hosts: &[HostEvent], turn: u32) -> Option<(Actor, &[HostEvent])>
    ensures due { IfSome result (λ next. due turn hosts.now ≡ next.0 ∷ due turn next.1.now) }
    ensures past { IfSome result (λ next. past turn hosts.now ≡ past turn next.1.now) }
    ensures fewer { IfSome result (λ next. length hosts.now ≡ 1 + length next.1.now) }
    ensures rises { IfSome result (λ next. Rises turn_of turn hosts.now → Rises turn_of turn next.1.now) }
    ensures none { result ≡ None → due turn hosts.now ≡ [] }
    ensures kept { result ≡ None → past turn hosts.now ≡ hosts.now }
{
    match hosts {
        [first, more @ ..] => {
            if first.turn == turn {
                Some((first.actor, more))
            } else {
                None
            }
        }
        [] => None,
    }
}

/// Whose turn a processor's own turn of this number is: its own, or where SMIs may come late that of its SMI.
fn turn_actor(delivery: Delivery, own: u32, cpu: u32) -> Actor
    ensures { result ≡ actor_in delivery own cpu }
{
    match delivery {
        Delivery::Late { lag } if u64::from(own) % (u64::from(lag) + 1) == u64::from(lag) => {
            Actor::Smi(cpu)
        }
        Delivery::Prompt | Delivery::Late { lag: _ } => Actor::Cpu(cpu),
    }
}

/// The processor's actor whose turn it is; none where a stall covers it.
fn actor_of(file: &File, stalled: &mut Stalled, turn: u32) -> Option<Actor>
    requires fit { IsFit file.now.platform }
    requires tracking { IsTracking file.now turn stalled.old }
    ensures some { IfSome result (λ a. cpus_of file.now turn ≡ a ∷ []) }
    ensures none { result ≡ None → cpus_of file.now turn ≡ [] }
    ensures tracking { IsTracking file.now (turn + 1) stalled.new }
{
    let count = file.platform.apic.0.len() as u32;
    let cpu = turn % count;
    if stalled.holds(cpu, turn) {
        None
    } else {
        Some(turn_actor(file.platform.delivery, turn / count, cpu))
    }
}

/// The actors of a file's turns: in each turn the host's events, and then the processor whose turn it is, or its SMI, unless a stall
/// covers it.
#[derive(Drop)]
pub(crate) struct Actors<'f> {
    file: &'f File,
    hosts: &'f [HostEvent],
    stalled: Stalled<'f>,
    turn: u32,
}

impl<'f> Model for Actors<'f> {
    ghost use Rattle.hp_top.specs.Actors.{Actors};

    ghost Value = { Actors };

    ghost view = { λ s. record { file = s.file.now; hosts = s.hosts.now; stalled = s.stalled; turn = s.turn } };
}

impl<'f> Actors<'f> {
    /// Of all turns of the file. Takes its host events by turn, and its stalls before their first.
    pub(crate) fn new(file: &'f File, hosts: &'f [HostEvent], stalled: Stalled<'f>) -> Actors<'f>
        requires fit { IsFit file.now.platform }
        requires tracking { IsTracking file.now 0 stalled }
        requires rises { Rises turn_of 0 hosts.now }
        requires same { (turn : ℕ) → at_turn turn hosts.now ≡ of_turn file.now turn }
        ensures ahead { IsAhead result }
        ensures all { to_come result ≡ actors_from file.now file.now.platform.turns 0 }
        ensures few { length (to_come result) ≤ file.now.platform.turns + length hosts.now }
    {
        Actors {
            file,
            hosts,
            stalled,
            turn: 0,
        }
    }

    /// The next of the host's events of the turn.
    fn next_of_host(&mut self) -> Option<Actor>
        ensures some { IfSome result (λ a. due self.old.turn self.old.hosts ≡ a ∷ due self.old.turn self.new.hosts) }
        ensures rises { Rises turn_of self.old.turn self.old.hosts → Rises turn_of self.old.turn self.new.hosts }
        ensures later { (t : ℕ) → self.old.turn < t → at_turn t self.new.hosts ≡ at_turn t self.old.hosts }
        ensures none { result ≡ None → due self.old.turn self.old.hosts ≡ [] }
        ensures over { result ≡ None → Rises turn_of self.old.turn self.old.hosts → Rises turn_of (self.old.turn + 1) self.new.hosts }
        ensures file { self.new.file ≡ self.old.file }
        ensures stalled { self.new.stalled ≡ self.old.stalled }
        ensures turn { self.new.turn ≡ self.old.turn }
    {
        match next_host(self.hosts, self.turn) {
            Some((actor, more)) => {
                self.hosts = more;
                Some(actor)
            }
            None => None,
        }
    }

    /// The processor's actor whose turn it is, if one is, and on to the next turn.
    fn end_turn(&mut self) -> Option<Actor>
        requires fit { IsFit self.old.file.platform }
        requires tracking { IsTracking self.old.file self.old.turn self.old.stalled }
        requires within { self.old.turn < self.old.file.platform.turns }
        ensures some { IfSome result (λ a. cpus_of self.old.file self.old.turn ≡ a ∷ []) }
        ensures none { result ≡ None → cpus_of self.old.file self.old.turn ≡ [] }
        ensures tracking { IsTracking self.old.file (self.old.turn + 1) self.new.stalled }
        ensures file { self.new.file ≡ self.old.file }
        ensures hosts { self.new.hosts ≡ self.old.hosts }
        ensures turn { self.new.turn ≡ self.old.turn + 1 }
    {
        let actor = actor_of(self.file, &mut self.stalled, self.turn);
        self.turn += 1;
        actor
    }

    /// The next of them.
    #[inline(always)]
    pub(crate) fn next(&mut self) -> Option<Actor>
        requires ahead { IsAhead self.old }
        ensures ahead { IsAhead self.new }
        ensures file { self.new.file ≡ self.old.file }
        ensures some { IfSome result (λ a. to_come self.old ≡ a ∷ to_come self.new) }
        ensures none { result ≡ None → to_come self.old ≡ [] }
    {
        'turns: while self.turn < self.file.platform.turns {
            if let Some(actor) = self.next_of_host() {
                return Some(actor);
            }
            if let Some(actor) = self.end_turn() {
                return Some(actor);
            }
        }
        None
    }
}
