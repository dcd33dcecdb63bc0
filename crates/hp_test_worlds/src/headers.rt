//! Platforms by the headers of their traces.

ghost use Rattle.std.specs.Prelude.{IfOk};
ghost use Rattle.hp_model.specs.Platform.{IsFit};

use crate::cases::{Fault, Header};
use hp_model::{NoMemory, Platform, fits};
use hp_reading::read_head;
use std::alloc::Global;

/// Two processors, the first there at boot.
pub const TWO: Header<'static> = Header::Line(
    "platform apic=0,1 boot=0 low=08000000 tseg=1 features=7 polls=8 turns=0 modern=true smram=true delivery=prompt",
);

/// Two boot processors.
pub const BOTH: Header<'static> = Header::Line(
    "platform apic=0,1 boot=0,1 low=08000000 tseg=1 features=7 polls=8 turns=0 modern=true smram=true delivery=prompt",
);

/// The numbers below this one, with commas between them.
fn ids_below(alloc: Global, count: u32) -> Result<String, NoMemory> {
    let mut ids = "0".to_string(alloc)?;
    for id in 1..count {
        ids.push_str(format!(in alloc; ",{id}")?.as_str())?;
    }
    Ok(ids)
}

/// The line of a header.
fn text_of(alloc: Global, header: &Header) -> Result<String, NoMemory> {
    match *header {
        Header::Line(line) => Ok(line.to_string(alloc)?),
        Header::Many {
            count,
            tseg_mib,
            more,
        } => {
            let ids = ids_below(alloc, count)?;
            Ok(format!(in alloc;
                "platform apic={ids} boot={ids} low=08000000 tseg={tseg_mib} features=7 polls=8 turns=0 modern=true smram=true delivery=prompt{more}"
            )?)
        }
    }
}

/// The platform whose trace has this header. `NotACase` where there is none.
pub fn platform_of(alloc: Global, header: &Header) -> Result<Platform, Fault>
    ensures { IfOk result (λ p. IsFit p) }
{
    let text = text_of(alloc, header)?;
    let Some(p) = read_head(alloc, text.as_bytes())? else {
        return Err(Fault::NotACase);
    };
    if fits(&p).is_err() {
        return Err(Fault::NotACase);
    }
    Ok(p)
}
