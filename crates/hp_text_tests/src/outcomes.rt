//! The line of each outcome that is told, as values.

use crate::lines::try_line;
use hp_model::{Answer, Entry, Event, Outcome, Refusal};
use std::test::Fail;

const OUTCOMES: [(Outcome, &str); 17] = [
    (
        Outcome::Added {
            cpu: 1,
            apic: 1,
            slot: 1,
        },
        "p0 @07f28088 tell added 1 1 1",
    ),
    (
        Outcome::Ejected {
            cpu: 2,
            apic: 254,
            slot: 3,
        },
        "p0 @07f28088 tell ejected 2 254 3",
    ),
    (
        Outcome::Refused(Refusal::Disabled {
            cpu: 1,
            status: 0x02,
        }),
        "p0 @07f28088 tell disabled 1 02",
    ),
    (
        Outcome::Refused(Refusal::Both {
            cpu: 1,
            status: 0x13,
        }),
        "p0 @07f28088 tell both 1 13",
    ),
    (
        Outcome::Refused(Refusal::AlreadyKnown {
            cpu: 1,
            apic: 10,
            slot: 2,
        }),
        "p0 @07f28088 tell alreadyknown 1 10 2",
    ),
    (
        Outcome::Refused(Refusal::GateHeld {
            cpu: 1,
            apic: 10,
            held: 11,
        }),
        "p0 @07f28088 tell gateheld 1 10 11",
    ),
    (
        Outcome::Refused(Refusal::NotAtGate { cpu: 1, apic: 10 }),
        "p0 @07f28088 tell notatgate 1 10",
    ),
    (
        Outcome::Refused(Refusal::NotCheckedIn { cpu: 1, apic: 10 }),
        "p0 @07f28088 tell notcheckedin 1 10",
    ),
    (
        Outcome::Refused(Refusal::NoUnplug {
            cpu: 1,
            features: 18446744073709551615,
        }),
        "p0 @07f28088 tell nounplug 1 18446744073709551615",
    ),
    (
        Outcome::Refused(Refusal::NotKnown { cpu: 1, apic: 10 }),
        "p0 @07f28088 tell notknown 1 10",
    ),
    (
        Outcome::Refused(Refusal::NotArrived { cpu: 1, apic: 10 }),
        "p0 @07f28088 tell notarrived 1 10",
    ),
    (
        Outcome::Refused(Refusal::NotParked { cpu: 1, apic: 10 }),
        "p0 @07f28088 tell notparked 1 10",
    ),
    (
        Outcome::Refused(Refusal::Foreign {
            cpu: 0,
            apic: 4294967294,
        }),
        "p0 @07f28088 tell foreign 0 4294967294",
    ),
    (
        Outcome::Refused(Refusal::StillPending {
            cpu: 1,
            status: 0x11,
        }),
        "p0 @07f28088 tell stillpending 1 11",
    ),
    (
        Outcome::Added {
            cpu: 1,
            apic: 70000,
            slot: 2,
        },
        "p0 @07f28088 tell added 1 70000 2",
    ),
    (
        Outcome::Refused(Refusal::NoUnplug {
            cpu: 1,
            features: 18446744073709551615,
        }),
        "p0 @07f28088 tell nounplug 1 18446744073709551615",
    ),
    (
        Outcome::Refused(Refusal::StillPending {
            cpu: 1,
            status: 0x11,
        }),
        "p0 @07f28088 tell stillpending 1 11",
    ),
];

#[test]
fn each_outcome_has_its_line(rt: HostRuntime) -> Result<(), Fail> {
    for (outcome, text) in OUTCOMES {
        let entry = Entry {
            event: Event::Tell(outcome),
            at: Some(0x07f28088),
            answer: Answer::Quiet,
        };
        try_line(&rt, rt.alloc(), &entry, text)?;
    }
    Ok(())
}
