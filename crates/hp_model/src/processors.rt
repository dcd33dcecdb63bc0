//! Processors and interrupt commands.

ghost use Rattle.std.specs.Prelude.{◌≡◌};
ghost use Rattle.hp_model.specs.Cpu.{is_outside as outside, may_take_init, may_take_smi};

/// The mode of a present processor.
#[derive(Clone, Copy)]
pub enum Mode {
    /// Waits for SIPI.
    Wait,
    /// Runs outside SMM, at this page of 4 KiB (20 bits).
    Running(u32),
    /// Is halted outside SMM, at this page.
    Halted(u32),
    /// Is in SMM, at this instruction address.
    Smm(u32),
}

impl Mode {
    /// Whether it is a running or halted processor's, outside SMM.
    pub fn is_outside(self) -> bool
        ensures { result ≡ outside self }
    {
        matches!(self, Mode::Running(_) | Mode::Halted(_))
    }
}

/// One possible processor.
#[derive(Clone, Copy)]
pub struct Cpu {
    pub present: bool,
    pub mode: Mode,
    /// The address of its SMM state: SMI entry goes to SMBASE + 0x8000.
    pub smbase: u32,
    /// The SMI latch.
    pub smi: bool,
    /// The INIT latch.
    pub init: bool,
    /// What the first handler loaded as new SMBASE.
    pub base: u32,
}

impl Cpu {
    /// Whether it may take the SMI that is latched.
    pub fn can_take_smi(&self) -> bool
        ensures { result ≡ may_take_smi self.now }
    {
        self.present && self.smi && self.mode.is_outside()
    }

    /// Whether it may take the INIT that is latched: an SMI goes before it.
    pub fn can_take_init(&self) -> bool
        ensures { result ≡ may_take_init self.now }
    {
        self.present && !self.smi && self.init && self.mode.is_outside()
    }
}

/// What an interrupt command delivers.
#[derive(Clone, Copy)]
pub enum Kind {
    Smi,
    Init,
    /// SIPI with its vector: the page at which the processor starts.
    Start(u8),
}

/// Whom an interrupt command is sent to.
#[derive(Clone, Copy)]
pub enum Target {
    /// The processor with this APIC ID, the sender included.
    Id(u32),
    /// All but the sender.
    Others,
}

/// An interrupt command that does something.
#[derive(Clone, Copy)]
pub struct Ipi {
    pub kind: Kind,
    pub to: Target,
}
