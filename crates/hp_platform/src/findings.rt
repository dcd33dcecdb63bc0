//! What is due: which step an actor's turn makes, and how the step of an event is made.

ghost use Rattle.std.specs.Prelude.{◌≡◌, true, IfSome, is_some, length};
ghost use Rattle.hp_model.specs.Boot.{is_booting, is_handed};
ghost use Rattle.hp_model.specs.declared.entries.Event.TheVariants.{Do, Resume, Tell};
ghost use Rattle.hp_model.specs.Firmware.{is_rsm, is_that_access, is_that_outcome, is_wanted, wanted};
ghost use Rattle.hp_model.specs.declared.turns.Due.TheVariants.{Idle as IdleDue};
ghost use Rattle.hp_model.specs.State.{State};
ghost use Rattle.hp_model.specs.Step.{can_do};
ghost use Rattle.hp_model.specs.Turn.{boot_due as due_in_boot, cpu_due as due_of_cpu, due_of, handed_due as due_after_boot, makes_if, smm_due};
ghost use Rattle.hp_platform.specs.Board.{IsFinding, IsFound, StandsFor, due_by, event_of, is_step};

use crate::boards::{Board, is_asleep, is_in_smm};
use crate::comparing::{same_access, same_outcome};
use hp_boot::BootStage;
use hp_model::{Access, Actor, Event, Label, Outcome, Want};
use hp_smm::SmmCpu;

/// A step that is due, with what was found of it.
#[derive(Clone, Copy)]
pub(crate) enum Found {
    /// The boot's next access.
    Boot(Event),
    /// A row of a handler: where its processor stands, its label, and the event that it wants.
    Row(SmmCpu, Label, Event),
    /// A step whose answer no handler takes.
    Plain(Event),
}

/// What an actor's turn comes to.
#[derive(Clone, Copy)]
pub(crate) enum Finding {
    /// No step.
    Idle,
    /// This step, which no agent has a say in.
    Makes(Found),
    /// Any access that the agent of this processor says.
    Asks(u32),
}

impl Found {
    /// The step.
    pub(crate) fn event(&self) -> &Event
        ensures { result.now ≡ event_of self.now }
    {
        match self {
            Found::Boot(event) | Found::Row(_, _, event) | Found::Plain(event) => event,
        }
    }
}

impl Board {
    fn makes_if(&self, found: Found) -> Finding
        ensures due { (s : State) → StandsFor self.now s → due_by result ≡ makes_if self.now.platform s (event_of found) }
        ensures found { IsFound self.now found → IsFinding self.now result }
    {
        if self.machine.enabled(found.event()) {
            Finding::Makes(found)
        } else {
            Finding::Idle
        }
    }

    fn boot_due(&self, actor: Actor) -> Finding
        requires { is_booting self.now.boot.stage ≡ true }
        ensures due { (s : State) → StandsFor self.now s → due_by result ≡ due_of self.now.platform s actor }
        ensures found { IsFinding self.now result }
    {
        match actor {
            Actor::Cpu(0) => self.makes_if(Found::Boot(Event::Do(0, self.boot.want()))),
            _ => Finding::Idle,
        }
    }

    #[tactic(auto, using(crate::proofs::Standing::rows_found))]
    fn smm_due(&self, cpu: u32) -> Finding
        requires { is_handed self.now.boot.stage ≡ true }
        ensures due { (s : State) → StandsFor self.now s → due_by result ≡ smm_due self.now.platform s cpu (wanted self.now.platform s cpu) }
        ensures found { IsFinding self.now result }
    {
        match self.row(cpu) {
            Some((smm_cpu, label, Want::Do(access))) => {
                self.makes_if(Found::Row(smm_cpu, label, Event::Do(cpu, access)))
            }
            Some((smm_cpu, label, Want::Tell(outcome))) if cpu == 0 => {
                self.makes_if(Found::Row(smm_cpu, label, Event::Tell(outcome)))
            }
            Some((_, _, Want::Resume)) => self.makes_if(Found::Plain(Event::Resume(cpu))),
            Some((_, _, Want::Tell(_))) | None => Finding::Idle,
        }
    }

    fn cpu_due(&self, cpu: u32) -> Finding
        requires { is_handed self.now.boot.stage ≡ true }
        ensures due { (s : State) → StandsFor self.now s → due_by result ≡ due_of_cpu self.now.platform s cpu }
        ensures found { IsFinding self.now result }
    {
        let processor = self.machine.cpu(cpu);
        if !self.platform.delivery.is_late() && processor.can_take_smi() {
            return Finding::Makes(Found::Plain(Event::TakeSmi(cpu)));
        }
        if processor.can_take_init() {
            return Finding::Makes(Found::Plain(Event::TakeInit(cpu)));
        }
        if is_in_smm(&processor) {
            return self.smm_due(cpu);
        }
        if self.machine.enabled(&Event::Do(cpu, Access::Halt)) {
            return Finding::Asks(cpu);
        }
        Finding::Idle
    }

    fn handed_due(&self, actor: Actor) -> Finding
        requires { is_handed self.now.boot.stage ≡ true }
        ensures due { (s : State) → StandsFor self.now s → due_by result ≡ due_after_boot self.now.platform s actor }
        ensures found { IsFinding self.now result }
    {
        match actor {
            Actor::Insert(cpu) => self.makes_if(Found::Plain(Event::Insert(cpu))),
            Actor::Remove(cpu) => self.makes_if(Found::Plain(Event::Remove(cpu))),
            Actor::Cpu(cpu) => self.cpu_due(cpu),
            Actor::Smi(cpu) => self.makes_if(Found::Plain(Event::TakeSmi(cpu))),
        }
    }

    /// Whether it is a turn of a processor that sleeps: a short look that spares most turns without a step the long one.
    #[tactic(auto, using(crate::proofs::Sleeping::asleep_facts))]
    pub(crate) fn sleeps(&self, actor: Actor) -> bool
        ensures { (s : State) → StandsFor self.now s → result ≡ true → due_of self.now.platform s actor ≡ IdleDue }
    {
        match self.boot.stage() {
            BootStage::Handed(_) => match actor {
                Actor::Cpu(cpu) => is_asleep(&self.machine.cpu(cpu)),
                Actor::Insert(_) | Actor::Remove(_) | Actor::Smi(_) => false,
            },
            BootStage::More | BootStage::Refused(_) => false,
        }
    }

    /// What the actor's turn comes to.
    pub(crate) fn due(&self, actor: Actor) -> Finding
        ensures due { (s : State) → StandsFor self.now s → due_by result ≡ due_of self.now.platform s actor }
        ensures found { IsFinding self.now result }
    {
        match self.boot.stage() {
            BootStage::More => self.boot_due(actor),
            BootStage::Handed(_) => self.handed_due(actor),
            BootStage::Refused(_) => Finding::Idle,
        }
    }

    /// How the boot makes this event, where that is its next access.
    fn boot_step(&self, e: &Event) -> Option<Found>
        requires { is_booting self.now.boot.stage ≡ true }
        ensures wanted { (s : State) → StandsFor self.now s → is_some result ≡ is_wanted self.now.platform s e.now }
        ensures event { IfSome result (λ f. event_of f ≡ e.now) }
        ensures found { IfSome result (IsFound self.now) }
    {
        match *e {
            Event::Do(0, access) if same_access(access, self.boot.want()) => Some(Found::Boot(*e)),
            _ => None,
        }
    }

    /// How the row of a processor in SMM makes this access, where the row wants it.
    #[tactic(auto, using(crate::proofs::Standing::rows_found))]
    fn access_row(&self, cpu: u32, access: Access) -> Option<Found>
        requires { is_handed self.now.boot.stage ≡ true }
        ensures wanted { (s : State) → StandsFor self.now s → is_some result ≡ is_that_access (wanted self.now.platform s cpu) access }
        ensures event { IfSome result (λ f. event_of f ≡ Do cpu access) }
        ensures found { IfSome result (IsFound self.now) }
    {
        match self.row(cpu) {
            Some((smm_cpu, label, Want::Do(wanted))) if same_access(access, wanted) => {
                Some(Found::Row(smm_cpu, label, Event::Do(cpu, access)))
            }
            Some(_) | None => None,
        }
    }

    /// How a row of the monarch tells this outcome, where the row wants that.
    #[tactic(auto, using(crate::proofs::Standing::rows_found))]
    fn outcome_row(&self, outcome: Outcome) -> Option<Found>
        requires { is_handed self.now.boot.stage ≡ true }
        ensures wanted { (s : State) → StandsFor self.now s → is_some result ≡ is_that_outcome (wanted self.now.platform s 0) outcome }
        ensures event { IfSome result (λ f. event_of f ≡ Tell outcome) }
        ensures found { IfSome result (IsFound self.now) }
    {
        match self.row(0) {
            Some((smm_cpu, label, Want::Tell(wanted))) if same_outcome(outcome, wanted) => {
                Some(Found::Row(smm_cpu, label, Event::Tell(outcome)))
            }
            Some(_) | None => None,
        }
    }

    /// How RSM is made, where the row of a processor in SMM wants it.
    fn resume_row(&self, cpu: u32) -> Option<Found>
        requires { is_handed self.now.boot.stage ≡ true }
        ensures wanted { (s : State) → StandsFor self.now s → is_some result ≡ is_rsm (wanted self.now.platform s cpu) }
        ensures event { IfSome result (λ f. event_of f ≡ Resume cpu) }
        ensures found { IfSome result (IsFound self.now) }
    {
        match self.row(cpu) {
            Some((_, _, Want::Resume)) => Some(Found::Plain(Event::Resume(cpu))),
            Some(_) | None => None,
        }
    }

    /// How an event that the machine can do is made after the hand-over, where it is no access of a processor in SMM, RSM or
    /// outcome but what a row wants.
    fn handed_step(&self, e: &Event) -> Option<Found>
        requires handed { is_handed self.now.boot.stage ≡ true }
        requires enabled { can_do self.now.machine.late (length self.now.machine.apic) self.now.machine.cpus e.now ≡ true }
        ensures wanted { (s : State) → StandsFor self.now s → is_some result ≡ is_wanted self.now.platform s e.now }
        ensures event { IfSome result (λ f. event_of f ≡ e.now) }
        ensures found { IfSome result (IsFound self.now) }
    {
        match *e {
            Event::Do(cpu, access) if is_in_smm(&self.machine.cpu(cpu)) => self.access_row(
                cpu, access,
            ),
            Event::Insert(_)
            | Event::Remove(_)
            | Event::Do(_, _)
            | Event::TakeSmi(_)
            | Event::TakeInit(_) => Some(Found::Plain(*e)),
            Event::Resume(cpu) => self.resume_row(cpu),
            Event::Tell(outcome) => self.outcome_row(outcome),
        }
    }

    /// How the step of this event is made; None where the event is no step now.
    pub(crate) fn step_of(&self, e: &Event) -> Option<Found>
        ensures is { (s : State) → StandsFor self.now s → is_some result ≡ is_step self.now.platform s e.now }
        ensures event { IfSome result (λ f. event_of f ≡ e.now) }
        ensures found { IfSome result (IsFound self.now) }
    {
        if !self.machine.enabled(e) {
            return None;
        }
        match self.boot.stage() {
            BootStage::More => self.boot_step(e),
            BootStage::Handed(_) => self.handed_step(e),
            BootStage::Refused(_) => None,
        }
    }
}
