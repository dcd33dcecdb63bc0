//! Laws over definitions: public functions with empty bodies, whose clauses are what is proved.

ghost use Rattle.std.specs.Prelude.{◌≡◌, ◌≢◌, ◌↔◌, ℕ, true, false, ◌==◌, ◌<◌, ◌%◌, ◌^◌, if◌then◌else◌};
ghost use Rattle.std.specs.Int.{bit_at};
ghost use Rattle.hp_model.specs.Ich9.{Ich9 as State, ich9_read, ich9_write, raises_smi, with_event};
ghost use Rattle.hp_ich9.specs.Registers.{is_register};

/// An access at a port or width that no register has changes nothing, raises nothing, and reads 0.
#[tactic(auto, using(crate::proofs::Accesses::elsewhere))]
pub fn other_accesses_do_nothing()
    ensures kept { (i : State) (port width value : ℕ) → is_register port width ≡ false → ich9_write i port width value ≡ i }
    ensures quiet { (i : State) (port width : ℕ) → is_register port width ≡ false → raises_smi i port width ≡ false }
    ensures zero { (i : State) (port width : ℕ) → is_register port width ≡ false → ich9_read i port width ≡ 0 }
{}

/// What was written to a register is read back, and a write is seen at no other port. A written 1 of the GPE status is in
/// `gpe_status_goes_bit_by_bit`.
#[tactic(auto, using(crate::proofs::Accesses::read_other))]
pub fn what_was_written_is_read_back()
    ensures apm_cnt { (i : State) (value : ℕ) → ich9_read (ich9_write i 0xb2 1 value) 0xb2 1 ≡ value % 2 ^ 8 }
    ensures apm_sts { (i : State) (value : ℕ) → ich9_read (ich9_write i 0xb3 1 value) 0xb3 1 ≡ value % 2 ^ 8 }
    ensures smi_en { (i : State) (value : ℕ) → ich9_read (ich9_write i 0x630 4 value) 0x630 4 ≡ value }
    ensures others { (i : State) (port width value other other_width : ℕ) → port ≢ other →
        ich9_read (ich9_write i port width value) other other_width ≡ ich9_read i other other_width }
{}

/// A written 1 clears its bit of the GPE status and leaves the other bits; an event sets its bit and leaves all else.
#[tactic(auto, using(crate::proofs::Events::by_bit))]
pub fn gpe_status_goes_bit_by_bit()
    ensures cleared { (i : State) (value bit : ℕ) → i.gpe_status < 2 ^ 8 → bit < 8 →
        bit_at (ich9_write i 0x620 1 value).gpe_status bit ≡ (if bit_at value bit == 1 then 0 else bit_at i.gpe_status bit) }
    ensures event { (i : State) (bit other : ℕ) →
        bit_at (with_event bit i).gpe_status other ≡ (if other == bit then 1 else bit_at i.gpe_status other) }
    ensures others { (i : State) (bit port width : ℕ) → port ≢ 0x620 →
        ich9_read (with_event bit i) port width ≡ ich9_read i port width }
{}

/// A write of APM_CNT raises an SMI exactly where APMC_EN, bit 5 of SMI_EN, is set, and no other write does: the last write of
/// SMI_EN decides it.
#[tactic(auto, using(crate::proofs::Events::raising))]
pub fn apm_cnt_raises_with_apmc_en()
    ensures exactly { (i : State) (port width : ℕ) →
        (raises_smi i port width ≡ true) ↔ ((port ≡ 0xb2) × (width ≡ 1) × (bit_at i.smi_en 5 ≡ 1)) }
    ensures written { (i : State) (value : ℕ) →
        (raises_smi (ich9_write i 0x630 4 value) 0xb2 1 ≡ true) ↔ (bit_at value 5 ≡ 1) }
    ensures kept { (i : State) (port width value : ℕ) → port ≢ 0x630 →
        raises_smi (ich9_write i port width value) 0xb2 1 ≡ raises_smi i 0xb2 1 }
{}
