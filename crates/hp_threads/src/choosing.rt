//! Whose turn it is: a processor's or its SMI's.

ghost use Rattle.std.specs.Prelude.{◌≡◌};
ghost use Rattle.hp_model.specs.Schedule.{turn_actor as actor_in};

use hp_model::{Actor, Delivery};

/// Whose turn a processor's own turn of this number is: its own, or where SMIs may come late that of its SMI.
pub(crate) fn turn_actor(delivery: Delivery, own: u32, cpu: u32) -> Actor
    ensures { result ≡ actor_in delivery own cpu }
{
    match delivery {
        Delivery::Late { lag } if u64::from(own) % (u64::from(lag) + 1) == u64::from(lag) => {
            Actor::Smi(cpu)
        }
        Delivery::Prompt | Delivery::Late { lag: _ } => Actor::Cpu(cpu),
    }
}
