//! What a processor asks of the machine, and what it is answered.

ghost use Rattle.std.specs.Prelude.{◌≡◌};
ghost use Rattle.hp_model.specs.declared.accesses.Access.TheVariants.{Load, Store};
ghost use Rattle.hp_model.specs.Boot.{value_in};

use crate::outcomes::Outcome;
use std::marker::Model;

/// One access of a processor: one atomic step of the machine.
///
/// Widths are in bytes: 1, 2, 4 or 8 in memory, 1, 2 or 4 at a port. An access of such a width whose value fits it is
/// called normal (own rule). The machine has a step for normal accesses alone.
#[derive(Clone, Copy, Debug, PartialEq)]
pub enum Access {
    /// Reads memory at a 32-bit address.
    Load {
        addr: u32,
        width: u8,
    },
    /// Writes memory at a 32-bit address, little-endian.
    Store {
        addr: u32,
        width: u8,
        value: u64,
    },
    /// Compares the 8 bytes at an address with `expected` and, where they are equal, stores `desired`.
    Swap {
        addr: u32,
        expected: u64,
        desired: u64,
    },
    /// Reads an I/O port.
    In {
        port: u16,
        width: u8,
    },
    /// Writes an I/O port.
    Out {
        port: u16,
        width: u8,
        value: u32,
    },
    /// Reads one byte of the memory controller's configuration registers.
    CfgRead {
        reg: u8,
    },
    /// Writes one byte of the memory controller's configuration registers.
    CfgWrite {
        reg: u8,
        value: u8,
    },
    /// Sends an interrupt command: both halves of the local APIC's ICR at once.
    Icr {
        high: u32,
        low: u32,
    },
    /// Halts until an interrupt is latched.
    Halt,
    /// Does nothing.
    Nop,
}

impl Access {
    /// A load of one byte.
    pub fn load_byte(addr: u32) -> Access
        ensures { result ≡ Load addr 1 }
    {
        Access::Load { addr, width: 1 }
    }

    /// A store of one byte.
    pub fn store_byte(addr: u32, value: u8) -> Access
        ensures { result ≡ Store addr 1 value }
    {
        Access::Store {
            addr,
            width: 1,
            value: u64::from(value),
        }
    }
}

/// What an access is answered: a value for `Load`, `Swap` (the old content), `In` and `CfgRead`, nothing for others.
#[derive(Clone, Copy, Debug, PartialEq)]
pub enum Answer {
    Quiet,
    Value(u64),
}

impl Answer {
    /// The value, 0 where there is none.
    pub fn value(&self) -> u64
        ensures { result ≡ value_in self.now }
    {
        match *self {
            Answer::Quiet => 0,
            Answer::Value(value) => value,
        }
    }
}

/// What a handler asks of the machine at a label.
#[derive(Clone, Copy)]
pub enum Want {
    /// An access.
    Do(Access),
    /// The outcome of an add or eject is told.
    Tell(Outcome),
    /// RSM.
    Resume,
}

/// The steps of a script, in order.
#[derive(Debug, Drop)]
pub struct Steps(pub Vec<Access>);

impl Model for Steps {
    ghost use Rattle.std.specs.Prelude.{List};
    ghost use Rattle.hp_model.specs.declared.accesses.Access.{Access};

    ghost Value = { List Access };

    ghost view = { λ s. s.0.items };
}
