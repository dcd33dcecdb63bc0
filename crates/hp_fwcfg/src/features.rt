//! SMI features, and whether the device grants a request for them.

ghost use Rattle.std.specs.Prelude.{⊤, [], ◌∷◌, ◌≡◌, codes};
ghost use Rattle.hp_model.specs.FwCfg.{agrees as is_granted, settled as settled_on};

use bitflags::{Flag, Flags, bitflag_items};

/// SMI features (QEMU docs/specs/fw_cfg).
#[derive(Clone, Copy, Drop)]
pub struct Features(pub u64);

bitflag_items! {
    impl Features: u64 {
        const BROADCAST = 1;
        const HOT_PLUG = 2;
        const HOT_UNPLUG = 4;
        const HOT_PLUG_AND_UNPLUG = 6;
    }
}

impl Flags for Features {
    type Bits = u64;

    ghost exact = { ⊤ };

    ghost table = { (codes "BROADCAST", 1) ∷ (codes "HOT_PLUG", 2) ∷ (codes "HOT_UNPLUG", 4) ∷ (codes "HOT_PLUG_AND_UNPLUG", 6) ∷ [] };

    ghost set_of = { λ f. f.0 };

    fn flags<'a>() -> &'a [Flag<Features>] {
        Features::FLAGS
    }

    fn bits(&self) -> u64 {
        self.0
    }

    fn from_bits_retain(bits: u64) -> Features {
        Features(bits)
    }
}

impl Features {
    /// Whether a device with these features grants the request: it holds none that isn't supported, hot-plug and
    /// hot-unplug only with broadcast, and hot-unplug only with hot-plug.
    #[tactic(auto, using(std::proofs::lemmas::Nat::and_comm))]
    fn grants(self, request: Features) -> bool
        ensures { result ≡ is_granted self.0 request.0 }
    {
        let has_broadcast = request.contains(Features::BROADCAST);
        let has_plug = request.contains(Features::HOT_PLUG);
        self.contains(request)
            && (has_broadcast || !request.intersects(Features::HOT_PLUG_AND_UNPLUG))
            && (has_plug || !request.intersects(Features::HOT_UNPLUG))
    }

    /// What is negotiated after a request: what was before, if anything, else the request where it is granted.
    pub fn settle(self, request: Features, negotiated: Option<u64>) -> Option<u64>
        ensures { result ≡ settled_on self.0 request.0 negotiated }
    {
        match negotiated {
            None if self.grants(request) => Some(request.bits()),
            _ => negotiated,
        }
    }
}
