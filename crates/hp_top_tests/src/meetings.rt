//! Workers that wait for one another, through the top call: one thread can't make both.

ghost use Rattle.std.specs.Prelude.{◌<◌};

use hp_agent::{Agent, Digger};
use hp_model::Actor;
use hp_threads::Pace;
use hp_top::{Status, SureSink, SureSource, top_threads};
use std::sync::atomic::{AtomicU32, Ordering};
use std::test::Fail;

/// Lets turns 1 and 3 of processors 0 and 1 wait for one another.
#[derive(Drop)]
struct Meeting {
    /// Whether turn 1 of each was reached, and then turn 3 of each.
    reached: [AtomicU32; 4],
    /// How many waits there were.
    waits: AtomicU32,
    /// How many of them saw the other.
    met: AtomicU32,
}

impl Meeting {
    fn new() -> Meeting {
        Meeting {
            reached: [
                AtomicU32::new(0),
                AtomicU32::new(0),
                AtomicU32::new(0),
                AtomicU32::new(0),
            ],
            waits: AtomicU32::new(0),
            met: AtomicU32::new(0),
        }
    }

    fn meet(&self, mine: usize, other: usize)
        requires { (mine < 4) × (other < 4) }
    {
        self.waits.fetch_add(1, Ordering::SeqCst);
        self.reached[mine].store(1, Ordering::SeqCst);
        for _look in 0..100_000_000u32 {
            if self.reached[other].load(Ordering::SeqCst) == 1 {
                self.met.fetch_add(1, Ordering::SeqCst);
                return;
            }
        }
    }
}

impl Pace for Meeting {
    fn before(&self, actor: Actor, turn: u32) {
        match (actor, turn) {
            (Actor::Cpu(0), 1) => self.meet(0, 1),
            (Actor::Cpu(1), 1) => self.meet(1, 0),
            (Actor::Cpu(0), 3) => self.meet(2, 3),
            (Actor::Cpu(1), 3) => self.meet(3, 2),
            _ => {}
        }
    }
}

/// Eight turns for each of two processors, which both have something to say in each of them. The agent of the second is handed in.
const FILE: &[u8] = b"[platform]
apic = [0, 1]
boot = [0, 1]
low_memory = 0x8000000
tseg_mib = 1
features = 7
polls = 8
turns = 16
[[agent]]
cpu = 0
kind = \"script\"
steps = [\"nop\", \"nop\", \"nop\", \"nop\", \"nop\", \"nop\", \"nop\", \"nop\"]
[[agent]]
cpu = 1
kind = \"handed\"
";

#[test]
fn two_workers_meet(rt: HostRuntime) -> Result<(), Fail> {
    let alloc = rt.alloc();
    let mut words = Vec::new(alloc);
    words.push("threads".to_string(alloc)?)?;
    let mut agents: Vec<Box<dyn Agent + Send>> = Vec::new(alloc);
    agents.push(Box::new(alloc, Digger::new())?)?;
    let mut src = SureSource::new(FILE.to_vec(alloc)?);
    let mut out = SureSink::new(Vec::new(alloc));
    let pace = Meeting::new();
    let status = top_threads(
        &rt,
        alloc,
        words.as_slice(),
        &mut src,
        &mut out,
        agents,
        &pace,
    );
    assert_eq!(rt; status, Status::Done);
    assert_eq!(rt; pace.waits.load(Ordering::SeqCst), 4);
    assert_eq!(rt; pace.met.load(Ordering::SeqCst), 4);
    assert!(rt; out.held().ends_with(b"\nend 43\n"));
    Ok(())
}
