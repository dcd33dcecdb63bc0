//! All SMI handlers of a machine.

ghost use Rattle.std.specs.Prelude.{◌≡◌, ◌≤◌, ◌==◌, Some, option_map, IfOk, IfSome, if◌then◌else◌};
ghost use Rattle.hp_model.specs.Boot.{value_in};
ghost use Rattle.hp_model.specs.Handlers.{address_of_label, is_current as is_current_at, is_tile as is_tile_at, next_at, runs_at, slot_at as slot_of, want_at};
ghost use Rattle.hp_model.specs.Labels.{handler_of};
ghost use Rattle.hp_model.specs.Monarch.{monarch_start, restarted, with_features};
ghost use Rattle.hp_model.specs.Platform.{IsFit, greatest_id};
ghost use Rattle.hp_model.specs.SharedBytes.{layout_of, tile_in};
ghost use Rattle.hp_model.specs.Fitting.{FitsWant};
ghost use Rattle.hp_smm.specs.Rows.{next_for, row_for, seat_for};

use crate::relocated::{relocated_next, relocated_want};
use hp_image::{label_of, mark, position_of};
use hp_model::{Answer, Handler, Label, NoMemory, Platform, Want, tile_at};
use hp_monarch::Monarch;
use hp_reloc::{first_next, first_want_by};
use std::alloc::Global;
use std::marker::Model;

/// What the handlers know of a processor in SMM.
#[derive(Clone, Copy)]
pub struct SmmCpu {
    /// Its place.
    pub cpu: u32,
    /// Its APIC ID.
    pub apic: u32,
    pub smbase: u32,
    /// What the first handler has loaded as its new SMBASE.
    pub base: u32,
    /// The 4 bytes at its instruction address, as it reads them.
    pub mark: u32,
}

/// The SMI handlers: the monarch of processor 0, and for all others the first handler and the relocated one, which keep nothing.
#[derive(Drop)]
pub struct Handlers {
    monarch: Monarch,
}

impl Model for Handlers {
    ghost use Rattle.hp_monarch.specs.Session.{Session};

    ghost Value = { Session };

    ghost use Rattle.hp_smm.specs.Rows.{IsLow};

    ghost view = { λ h. h.monarch };

    // so a row is due at SMBASEs alone that leave room for the handler
    ghost invariant = { λ h. IsLow h.monarch.layout };
}

/// The instruction address of a label, in the handler that runs at this SMBASE.
fn address(smbase: u32, label: Label) -> u32
    requires { smbase ≤ 0x90000000 }
    ensures { result ≡ address_of_label smbase label }
{
    smbase + 0x8000 + 4 * position_of(label).index
}

impl Handlers {
    /// No session has begun. Later calls take no memory.
    #[tactic(auto, using(crate::proofs::Due::fits_low))]
    pub fn new(alloc: Global, p: &Platform) -> Result<Handlers, NoMemory>
        requires { IsFit p.now }
        ensures layout { IfOk result (λ h. h.layout ≡ layout_of p.now) }
        ensures monarch { IfOk result (λ h. h.monarch ≡ monarch_start p.now) }
    {
        Ok(Handlers {
            monarch: Monarch::new(alloc, p)?,
        })
    }

    /// The negotiated SMI features: bit 0 broadcast, bit 1 hot-plug, bit 2 hot-unplug.
    pub fn features(&mut self, negotiated: u64)
        ensures { self.new ≡ record self.old { monarch = with_features negotiated self.old.monarch } }
    {
        self.monarch.features(negotiated);
    }

    /// SMI entry of a processor. That of processor 0 begins a session.
    pub fn entered(&mut self, cpu: u32)
        ensures { self.new ≡ (if cpu == 0 then record self.old { monarch = restarted self.old.monarch } else self.old) }
    {
        if cpu == 0 {
            self.monarch.restart();
        }
    }

    /// The first address of the tile of slot 0.
    fn first_tile(&self) -> u32
        ensures { result ≡ tile_in self.now.layout 0 }
    {
        tile_at(self.monarch.tseg(), 0)
    }

    /// The slot of the tile where this SMBASE lies, if it is one of a possible slot.
    fn slot_at(&self, smbase: u32) -> u32
        ensures value { result ≡ slot_of self.now.layout smbase }
        ensures below { result ≤ 0xffff }
    {
        smbase.saturating_sub(self.first_tile()) / 0x10000
    }

    /// Whether this SMBASE is the tile of a possible slot.
    fn is_tile(&self, smbase: u32) -> bool
        ensures { result ≡ is_tile_at self.now.layout smbase }
    {
        let slot = self.slot_at(smbase);
        slot < self.monarch.count() && smbase == tile_at(self.monarch.tseg(), slot)
    }

    /// Whether this handler runs where the processor stands: processor 0 runs the monarch alone.
    fn runs(&self, handler: Handler, me: &SmmCpu) -> bool
        ensures { result ≡ runs_at self.now.layout handler me.now.cpu me.now.smbase }
    {
        match handler {
            Handler::First => me.cpu != 0 && me.smbase == 0x30000,
            Handler::Relocated => {
                me.cpu != 0 && self.slot_at(me.smbase) != 0 && self.is_tile(me.smbase)
            }
            Handler::Monarch => me.cpu == 0 && me.smbase == self.first_tile(),
        }
    }

    /// Whether it is this label's turn: the monarch's is the one where its record stands.
    fn is_current(&self, label: Label) -> bool
        ensures { result ≡ is_current_at self.now.monarch (handler_of label) label }
    {
        match position_of(label).handler {
            Handler::Monarch => mark(label) == mark(self.monarch.label()),
            Handler::First | Handler::Relocated => true,
        }
    }

    /// The label whose row is due where the processor stands.
    #[tactic(auto, unfolding(hp_model::specs::Handlers::label_of_mark))]
    fn label_at(&self, me: &SmmCpu) -> Option<Label>
        ensures { result ≡ row_for self.now me.now }
    {
        match label_of(me.mark) {
            Some(label) if self.runs(position_of(label).handler, me) && self.is_current(label) => {
                Some(label)
            }
            _ => None,
        }
    }

    /// What is wanted at a label whose row is due.
    fn want_at(&self, me: &SmmCpu, label: Label) -> Want
        requires apic { me.now.apic ≤ greatest_id self.now.layout.x2apic }
        requires row { row_for self.now me.now ≡ Some label }
        ensures { want_at self.now.layout (seat_for self.now me.now) self.now.monarch label ≡ Some result }
    {
        match position_of(label).handler {
            Handler::First => first_want_by(self.monarch.x2apic(), label, me.apic, me.base),
            Handler::Relocated => {
                relocated_want(label, self.monarch.tseg(), self.slot_at(me.smbase))
            }
            Handler::Monarch => self.monarch.want(),
        }
    }

    /// The row that is due where the processor stands: its label, and what it wants. `None` where no handler's row is due.
    pub fn row(&self, me: &SmmCpu) -> Option<(Label, Want)>
        requires { me.now.apic ≤ greatest_id self.now.layout.x2apic }
        ensures label { row_for self.now me.now ≡ option_map (λ row. row.0) result }
        ensures want { IfSome result (λ row. want_at self.now.layout (seat_for self.now me.now) self.now.monarch row.0 ≡ Some row.1) }
    {
        match self.label_at(me) {
            Some(label) => Some((label, self.want_at(me, label))),
            None => None,
        }
    }

    /// The next label and the base.
    fn next_at(&mut self, me: &SmmCpu, label: Label, answer: Answer) -> (Label, u32)
        requires row { row_for self.old me.now ≡ Some label }
        requires fits { FitsWant (want_at self.old.layout (seat_for self.old me.now) self.old.monarch label) answer }
        ensures next { next_for self.old me.now label answer ≡ record { label = result.0; base = result.1; monarch = self.new.monarch } }
        ensures layout { self.new.layout ≡ self.old.layout }
        ensures low { me.now.smbase ≤ 0x90000000 }
    {
        match position_of(label).handler {
            Handler::First => first_next(label, me.apic, me.base, answer),
            Handler::Relocated => (relocated_next(label, answer), me.base),
            Handler::Monarch => {
                self.monarch.feed(answer);
                (self.monarch.label(), me.base)
            }
        }
    }

    /// The answer to the access that the processor wanted at this label, whose row is due. Answers the instruction address where
    /// it goes on, and its base from there on.
    pub fn feed(&mut self, me: &SmmCpu, label: Label, answer: Answer) -> (u32, u32)
        requires row { row_for self.old me.now ≡ Some label }
        requires fits { FitsWant (want_at self.old.layout (seat_for self.old me.now) self.old.monarch label) answer }
        ensures address { result.0 ≡ address_of_label me.now.smbase (next_for self.old me.now label answer).label }
        ensures base { result.1 ≡ (next_for self.old me.now label answer).base }
        ensures monarch { self.new ≡ record self.old { monarch = (next_for self.old me.now label answer).monarch } }
    {
        let (next, base) = self.next_at(me, label, answer);
        (address(me.smbase, next), base)
    }
}
