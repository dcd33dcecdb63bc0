//! The registers behind ICH9's ports (QEMU, ICH9 LPC).

ghost use Rattle.std.specs.Prelude.{◌≡◌, ◌↔◌, IsTrue, ◌<◌, ◌==◌, ◌%◌, ◌^◌, bit_and, true, if◌then◌else◌};
ghost use Rattle.hp_model.specs.Ich9.{cleared, ich9_read, ich9_start, ich9_write, raises_smi, with_event};

use crate::flags::SmiEn;
use bitflags::Flags;
use std::marker::Model;

/// The SMI command, 1 byte.
const APM_CNT: u16 = 0xb2;
/// What the command's writer leaves beside it, 1 byte.
const APM_STS: u16 = 0xb3;
/// The status of general-purpose events, 1 byte.
const GPE_STS: u16 = 0x620;
/// Which events raise an SMI, 4 bytes.
const SMI_EN: u16 = 0x630;

/// What a write to a port does besides the registers.
#[derive(Clone, Copy, Debug, PartialEq)]
pub enum Raise {
    Nothing,
    /// An SMI, at the processors that the machine sends it to.
    Smi,
}

/// The registers of one machine.
#[derive(Drop)]
pub struct Ich9 {
    apm_cnt: u8,
    apm_sts: u8,
    smi_en: SmiEn,
    gpe_status: u8,
}

impl Model for Ich9 {
    ghost use Rattle.std.specs.Prelude.{◌<◌, ◌^◌};
    ghost use Rattle.hp_model.specs.Ich9 as model;

    ghost Value = { model.Ich9 };

    ghost view = { λ i. record { apm_cnt = i.apm_cnt; apm_sts = i.apm_sts; smi_en = i.smi_en.0; gpe_status = i.gpe_status } };

    ghost invariant = { λ i. (i.apm_cnt < 2 ^ 8) × (i.apm_sts < 2 ^ 8) × (i.smi_en.0 < 2 ^ 32) × (i.gpe_status < 2 ^ 8) };
}

/// The value's lowest byte.
fn low_byte(value: u32) -> u8
    ensures { result ≡ value % 0x100 }
{
    (value & 0xff) as u8
}

/// The byte without the bits that are 1 in `ones`.
#[tactic(auto, using(crate::proofs::Bits::without_ones))]
fn without(byte: u8, ones: u8) -> u8
    ensures { result ≡ cleared byte ones }
{
    byte & !ones
}

impl Ich9 {
    /// All registers 0.
    pub fn new() -> Ich9
        ensures { result ≡ ich9_start }
    {
        Ich9 {
            apm_cnt: 0,
            apm_sts: 0,
            smi_en: SmiEn(0),
            gpe_status: 0,
        }
    }

    /// Whether the two are the same, register for register.
    pub fn same(&self, other: &Ich9) -> bool
        ensures { IsTrue result ↔ (self.now ≡ other.now) }
    {
        self.apm_cnt == other.apm_cnt
            && self.apm_sts == other.apm_sts
            && self.smi_en.bits() == other.smi_en.bits()
            && self.gpe_status == other.gpe_status
    }

    /// What a write of the SMI command raises.
    fn raised_by_command(&self) -> Raise
        ensures { result ≡ (if bit_and self.now.smi_en 0x20 == 0x20 then Raise.Smi else Raise.Nothing) }
    {
        if self.smi_en.contains(SmiEn::APMC_EN) {
            Raise::Smi
        } else {
            Raise::Nothing
        }
    }

    /// The registers' part of a write.
    fn write(&mut self, port: u16, width: u8, value: u32)
        ensures { self.new ≡ ich9_write self.old port width value }
    {
        match (port, width) {
            (APM_CNT, 1) => self.apm_cnt = low_byte(value),
            (APM_STS, 1) => self.apm_sts = low_byte(value),
            (GPE_STS, 1) => self.gpe_status = without(self.gpe_status, low_byte(value)),
            (SMI_EN, 4) => self.smi_en = SmiEn(value),
            _ => {}
        }
    }

    /// Writes a port, and tells what that raises. `width` is in bytes; of `value` the lowest byte counts, at SMI_EN all four.
    /// Where no register has that port and width, nothing changes (own rule).
    pub fn out(&mut self, port: u16, width: u8, value: u32) -> Raise
        ensures registers { self.new ≡ ich9_write self.old port width value }
        ensures raise { result ≡ (if raises_smi self.old port width then Raise.Smi else Raise.Nothing) }
    {
        self.write(port, width, value);
        match (port, width) {
            (APM_CNT, 1) => self.raised_by_command(),
            _ => Raise::Nothing,
        }
    }

    /// Reads a port: 0 where no register has that port and width (own rule). `width` is in bytes.
    #[tactic(auto, using(crate::proofs::Bits::some_value))]
    pub fn inp(&self, port: u16, width: u8) -> u32
        ensures value { result ≡ ich9_read self.now port width }
        ensures below { result < 256 ^ width }
    {
        match (port, width) {
            (APM_CNT, 1) => u32::from(self.apm_cnt),
            (APM_STS, 1) => u32::from(self.apm_sts),
            (GPE_STS, 1) => u32::from(self.gpe_status),
            (SMI_EN, 4) => self.smi_en.bits(),
            _ => 0,
        }
    }

    /// A general-purpose event: its bit of the status, 0 to 7, is set.
    pub fn gpe(&mut self, bit: u8)
        requires { bit < 8 }
        ensures { self.new ≡ with_event bit self.old }
    {
        self.gpe_status |= 1 << bit;
    }
}
