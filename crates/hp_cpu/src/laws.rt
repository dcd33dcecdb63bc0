//! Laws of processors: public functions with empty bodies, whose clauses are what is proved.

ghost use Rattle.std.specs.Prelude.{◌≡◌, ◌<◌, ◌%◌, ◌/◌, ◌^◌, ℕ, true, false};
ghost use Rattle.hp_model.specs.declared.processors.Cpu.{Cpu};
ghost use Rattle.hp_model.specs.declared.processors.Kind.TheVariants.{Smi, Init, Start};
ghost use Rattle.hp_model.specs.declared.processors.Mode.TheVariants.{Running};
ghost use Rattle.hp_model.specs.Cpu.{is_waiting, page_of, hit, may_take_smi, take_smi, may_take_init, take_init, resumed};
ghost use Rattle.hp_model.specs.SaveArea.{rip_of};
ghost use Rattle.hp_cpu.specs.declared.save_area.SavePlan.{SavePlan};
ghost use Rattle.hp_cpu.specs.Changes.{Change, changed, is_rsm, is_hot_plug};
ghost use Rattle.hp_cpu.specs.Saving.{packed, unpacked};

/// Of all that happens to a processor that is present before and after it, RSM alone changes SMBASE.
pub fn smbase_changes_at_rsm_alone()
    ensures { (e : Change) (c : Cpu) → c.present ≡ true → (changed e c).present ≡ true → is_rsm e ≡ false
        → (changed e c).smbase ≡ c.smbase }
{}

/// INIT and SIPI leave SMBASE, INIT both when it is latched and when it is taken.
pub fn init_and_sipi_leave_smbase()
    ensures latched { (c : Cpu) → (hit Init c).smbase ≡ c.smbase }
    ensures taken { (c : Cpu) → (take_init c).smbase ≡ c.smbase }
    ensures sipi { (page : ℕ) (c : Cpu) → (hit (Start page) c).smbase ≡ c.smbase }
{}

/// A latch holds one SMI, or one INIT: a second hit before the first is taken changes nothing.
pub fn latches_hold_one()
    ensures smi { (c : Cpu) → hit Smi (hit Smi c) ≡ hit Smi c }
    ensures init { (c : Cpu) → hit Init (hit Init c) ≡ hit Init c }
{}

/// INIT changes nothing of a processor that waits for SIPI, and SIPI nothing of one that doesn't wait.
pub fn only_a_waiting_processor_starts()
    ensures init { (c : Cpu) → is_waiting c.mode ≡ true → hit Init c ≡ c }
    ensures sipi { (page : ℕ) (c : Cpu) → is_waiting c.mode ≡ false → hit (Start page) c ≡ c }
{}

/// RSM makes bits 15:0 of SMBASE zero, and takes the others as they were read.
pub fn rsm_aligns_smbase()
    ensures low { (smbase rip : ℕ) (c : Cpu) → (resumed smbase rip c).smbase % 0x10000 ≡ 0 }
    ensures high { (smbase rip : ℕ) (c : Cpu) → (resumed smbase rip c).smbase / 0x10000 ≡ smbase / 0x10000 }
{}

/// A host insert and a removal alone change whether a processor is present.
pub fn presence_changes_by_hot_plug_alone()
    ensures { (e : Change) (c : Cpu) → is_hot_plug e ≡ false → (changed e c).present ≡ c.present }
{}

/// Where both latches are set the SMI is taken, and after RSM the INIT.
pub fn an_smi_goes_before_init()
    ensures first { (c : Cpu) → may_take_smi c ≡ true → may_take_init c ≡ false }
    ensures later { (smbase rip : ℕ) (c : Cpu) → may_take_smi c ≡ true → c.init ≡ true
        → may_take_init (resumed smbase rip (take_smi c)) ≡ true }
{}

/// RSM with what SMI entry saved leads back to the page that the SMI interrupted. A halted processor then runs.
pub fn an_smi_returns_to_its_page()
    ensures { (c : Cpu) → may_take_smi c ≡ true → c.smbase % 0x10000 ≡ 0 → page_of c.mode < 2 ^ 20
        → resumed c.smbase (rip_of c) (take_smi c) ≡ record c { smi = false; mode = Running (page_of c.mode) } }
{}

/// `get` of what `put` packs has the plan's SMBASE and RIP.
#[tactic(auto, using(crate::proofs::Bytes::unpacked_packed))]
pub fn what_is_put_is_read_back()
    ensures { (plan : SavePlan) → plan.smbase < 2 ^ 32 → plan.rip < 2 ^ 64
        → unpacked (packed plan) ≡ record { smbase = plan.smbase; rip = plan.rip } }
{}
