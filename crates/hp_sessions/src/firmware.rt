//! The firmware of one platform, asked for its steps and fed with their answers.

ghost use Rattle.std.specs.Prelude.{◌≡◌};
ghost use Rattle.hp_model.specs.Platform.{IsFit};

use crate::answers::{answers, takes};
use crate::seats::Seat;
use hp_boot::{Boot, BootStage};
use hp_model::{Answer, Entry, Event, NoMemory, Platform, Want, greatest_id};
use hp_smm::{Handlers, SmmCpu};
use std::alloc::{AllocError, Global};
use std::marker::Model;

/// What changes where a processor is but its handler.
#[derive(Clone, Copy)]
pub enum Move {
    /// SMI entry.
    Enter,
    /// RSM.
    Leave,
    /// In SMM at this SMBASE, where this mark stands at its instruction address, with this base.
    To { smbase: u32, mark: u32, base: u32 },
}

/// The boot sequence and the handlers, and where each processor stands in SMM.
#[derive(Drop)]
pub struct Firmware {
    boot: Boot,
    handlers: Handlers,
    /// Whether APIC IDs have 32 bits.
    x2apic: bool,
    /// By place.
    seats: Vec<Seat>,
}

impl Model for Firmware {
    ghost use Rattle.std.specs.Prelude.{◌≡◌, Bool};

    ghost Value = { Bool };

    ghost view = { λ f. f.x2apic };

    // what the handlers ask of an APIC ID rests on it
    ghost invariant = { λ f. f.handlers.layout.x2apic ≡ f.x2apic };
}

/// What a processor in SMM wants; nothing where it has no row.
fn want_of(handlers: &Handlers, x2apic: bool, smm_cpu: &SmmCpu) -> Option<Want>
    requires { handlers.now.layout.x2apic ≡ x2apic }
{
    if smm_cpu.apic > greatest_id(x2apic) {
        return None;
    }
    let (_label, want) = handlers.row(smm_cpu)?;
    Some(want)
}

/// Feeds an answer to a processor in SMM, and leads it on. Answers whether what it wants has such an answer.
fn feed_handlers(handlers: &mut Handlers, x2apic: bool, seat: &mut Seat, answer: Answer) -> bool
    requires { handlers.old.layout.x2apic ≡ x2apic }
    ensures { handlers.new.layout ≡ handlers.old.layout }
{
    if seat.smm_cpu.apic > greatest_id(x2apic) {
        return false;
    }
    let Some((label, want)) = handlers.row(&seat.smm_cpu) else {
        return false;
    };
    if !takes(want, answer) {
        return false;
    }
    let (at, base) = handlers.feed(&seat.smm_cpu, label, answer);
    seat.go_to(at);
    seat.smm_cpu.base = base;
    true
}

/// Where each processor stands before its first SMI.
fn seats_of(alloc: Global, p: &Platform) -> Result<Vec<Seat>, AllocError>
    requires { IsFit p.now }
{
    let mut seats = Vec::new(alloc);
    let mut cpu = 0u32;
    for apic in p.apic.0.iter() {
        seats.push(Seat::new(p, cpu, *apic))?;
        cpu = cpu.wrapping_add(1);
    }
    Ok(seats)
}

impl Firmware {
    /// Before the boot's first access and the first session.
    pub fn new(alloc: Global, p: &Platform) -> Result<Firmware, NoMemory>
        requires { IsFit p.now }
    {
        Ok(Firmware {
            boot: Boot::new(p),
            handlers: Handlers::new(alloc, p)?,
            x2apic: p.x2apic,
            seats: seats_of(alloc, p)?,
        })
    }

    /// The negotiated SMI features, as `Handlers::features` has them.
    pub fn features(&mut self, negotiated: u64) {
        self.handlers.features(negotiated);
    }

    /// Where a processor stands.
    pub fn seat(&self, cpu: u32) -> Option<&Seat> {
        self.seats.get(cpu as usize)
    }

    /// The next step of a processor in SMM, answered so; none where it has no row.
    pub fn in_smm(&self, cpu: u32, answer: Answer) -> Option<Entry> {
        let seat = self.seats.get(cpu as usize)?;
        let event = match want_of(&self.handlers, self.x2apic, &seat.smm_cpu)? {
            Want::Do(access) => Event::Do(cpu, access),
            Want::Tell(outcome) => Event::Tell(outcome),
            Want::Resume => Event::Resume(cpu),
        };
        Some(Entry {
            event,
            at: Some(seat.at),
            answer,
        })
    }

    /// The boot's next access, answered so; none once the boot is over.
    pub fn in_boot(&self, answer: Answer) -> Option<Entry> {
        if let BootStage::More = self.boot.stage() {
            return Some(Entry {
                event: Event::Do(0, self.boot.want()),
                at: None,
                answer,
            });
        }
        None
    }

    /// How the boot stands.
    pub fn stage(&self) -> BootStage {
        self.boot.stage()
    }

    /// Feeds an answer to the boot. Answers whether its next access has such an answer.
    pub fn feed_boot(&mut self, answer: Answer) -> bool {
        if let BootStage::More = self.boot.stage() {
            let fits = answers(self.boot.want(), answer);
            if fits {
                self.boot.feed(answer);
            }
            return fits;
        }
        false
    }

    /// Feeds an answer to a processor in SMM. Answers whether what it wants has such an answer.
    pub fn feed(&mut self, cpu: u32, answer: Answer) -> bool {
        match self.seats.get_mut(cpu as usize) {
            Some(seat) => feed_handlers(&mut self.handlers, self.x2apic, seat, answer),
            None => false,
        }
    }

    /// SMI entry, RSM or another place of a processor. Answers whether there is such a processor.
    pub fn go(&mut self, cpu: u32, to: Move) -> bool {
        let Some(seat) = self.seats.get_mut(cpu as usize) else {
            return false;
        };
        match to {
            Move::Enter => {
                self.handlers.entered(cpu);
                seat.enter();
            }
            Move::Leave => seat.leave(),
            Move::To { smbase, mark, base } => seat.put(smbase, mark, base),
        }
        true
    }
}
