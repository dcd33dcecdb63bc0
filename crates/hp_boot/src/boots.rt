//! The boot as a generator that is fed by answers.

ghost use Rattle.std.specs.Prelude.{◌≡◌, true, ◌<◌};
ghost use Rattle.hp_model.specs.Platform.{IsFit};
ghost use Rattle.hp_model.specs.Boot.{boot_count, boot_start, is_booting, boot_next, boot_refusal, stage_after, stage_by};
ghost use Rattle.hp_model.specs.Fitting.{FitsAccess};
ghost use Rattle.hp_boot.specs.Booting.{stage_view, boot_stage_of, IsBefore, IsRead};

use crate::table::{access, ext_count};
use hp_model::{Access, Answer, BootFact, Platform};
use std::marker::Model;

/// How a boot stands, for its caller.
#[derive(Clone, Copy)]
pub enum BootStage {
    /// There is a next access.
    More,
    /// The machine is handed over, with these SMI features requested (bits 0 to 2).
    Handed(u64),
    /// Nothing steps from here on, for the value that was read last.
    Refused(BootFact),
}

/// Where a boot stands.
#[derive(Clone, Copy)]
enum Standing {
    /// So many accesses are made, and access 21 answered these supported features; 0 before it.
    Boots { done: u8, supported: u64 },
    Refused(BootFact),
    Handed(u64),
}

/// The boot of one machine.
#[derive(Drop)]
pub struct Boot {
    /// The size of TSEG in MiB.
    tseg_mib: u32,
    standing: Standing,
}

impl Model for Boot {
    ghost use Rattle.hp_boot.specs.Booting as model;

    ghost Value = { model.Booting };

    ghost view = { λ b. record { mib = b.tseg_mib; stage = model.stage_view b.standing } };

    ghost invariant = { λ b. model.IsBefore b.tseg_mib b.standing };
}

/// What the value is refused for that the access after `done` accesses read.
fn refusal(mib: u32, done: u8, value: u64) -> Option<BootFact>
    requires { IsRead mib done value }
    ensures { result ≡ boot_refusal mib done value }
{
    if done == 3 && value != 0 {
        Some(BootFact::NotModern(value as u32))
    } else if done == 5 && value != 1 {
        Some(BootFact::NoDefaultSmram(value as u8))
    } else if mib == 48 && done == 16 && value != 0x30 {
        Some(BootFact::NoExtTseg(value as u8))
    } else if done == 25 + ext_count(mib) && value != 1 {
        Some(BootFact::NotNegotiated(value as u8))
    } else {
        None
    }
}

/// Where the boot stands once the access after `done` accesses read `value`.
fn after(mib: u32, done: u8, supported: u64, value: u64) -> Standing
    requires before { done < boot_count mib }
    requires read { IsRead mib done value }
    ensures stage { stage_view result ≡ stage_by mib (boot_refusal mib done value) done supported value }
    ensures before { IsBefore mib result }
{
    let ext = ext_count(mib);
    match refusal(mib, done, value) {
        Some(fact) => Standing::Refused(fact),
        None if done == 26 + ext => Standing::Handed(supported % 8),
        None if done == 20 + ext => Standing::Boots {
            done: done + 1,
            supported: value,
        },
        None => Standing::Boots {
            done: done + 1,
            supported,
        },
    }
}

impl Boot {
    /// The boot of this machine, before its first access.
    pub fn new(p: &Platform) -> Boot
        requires { IsFit p.now }
        ensures { result ≡ record { mib = p.now.tseg_mib; stage = boot_start } }
    {
        Boot {
            tseg_mib: p.tseg_mib,
            standing: Standing::Boots {
                done: 0,
                supported: 0,
            },
        }
    }

    /// The next access. Processor 0 makes it.
    pub fn want(&self) -> Access
        requires { is_booting self.now.stage ≡ true }
        ensures { result ≡ boot_next self.now.mib self.now.stage }
    {
        match self.standing {
            Standing::Boots { done, supported } => access(self.tseg_mib, supported, done),
            Standing::Refused(_) | Standing::Handed(_) => Access::Nop,
        }
    }

    /// Takes the answer to the access that `want` told: a value that the access's width holds, or none.
    pub fn feed(&mut self, answer: Answer) -> BootStage
        requires booting { is_booting self.old.stage ≡ true }
        requires fits { FitsAccess (boot_next self.old.mib self.old.stage) answer }
        ensures step { self.new ≡ record self.old { stage = stage_after self.old.mib answer self.old.stage } }
        ensures told { result ≡ boot_stage_of self.new.stage }
    {
        if let Standing::Boots { done, supported } = self.standing {
            self.standing = after(self.tseg_mib, done, supported, answer.value());
        }
        self.stage()
    }

    /// How the boot stands.
    pub fn stage(&self) -> BootStage
        ensures { result ≡ boot_stage_of self.now.stage }
    {
        match self.standing {
            Standing::Boots { .. } => BootStage::More,
            Standing::Refused(fact) => BootStage::Refused(fact),
            Standing::Handed(requested) => BootStage::Handed(requested),
        }
    }
}
