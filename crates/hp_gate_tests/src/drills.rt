//! A monarch and its processors, each on a thread.

ghost use Rattle.std.specs.Prelude.{◌≡◌, ℕ, ◌<◌, ◌≤◌, true};
ghost use Rattle.std.specs.Arc.{arc_value};
ghost use Rattle.hp_model.specs.Block.{is_in};
ghost use Rattle.hp_gate.specs.Openings.{apics_of, opened};
ghost use Rattle.hp_gate.specs.Seats.{IsShut, is_idle};
ghost use Rattle.hp_gate.specs.declared.views.Work.TheVariants.{Free};

use hp_gate::{Closed, CpuSeat, Gate, Look, MonarchSeat, Named, Pass};
use std::alloc::AllocError;
use std::sync::Arc;
use std::test::Fail;
use std::thread;
use std::thread::Threads;

const TRIES: u32 = 10_000;

/// A processor that tries to pass.
#[derive(Drop)]
struct Served {
    gate: Arc<Gate>,
    seat: CpuSeat,
    ghost mine: { seat.gate ≡ arc_value gate },
    ghost free: { seat.view.work ≡ Free },
}

/// A monarch that names APIC IDs 1 to 4 in turn.
#[derive(Drop)]
struct Leading {
    gate: Arc<Gate>,
    seat: MonarchSeat,
    ghost mine: { seat.gate ≡ arc_value gate },
    ghost idle: { is_idle seat.view.stage ≡ true },
    ghost listed: { (a : ℕ) → 0 < a → a ≤ 4 → is_in a (apics_of seat.view.list) ≡ true },
}

#[derive(Drop)]
enum Job {
    Cpu(Served),
    Monarch(Leading),
}

/// One try, with all that comes behind a pass. Whether it passed.
fn try_once(gate: &Gate, c: &mut CpuSeat) -> bool
    requires mine { c.old.gate ≡ gate.now }
    requires free { c.old.view.work ≡ Free }
    ensures mine { c.new.gate ≡ c.old.gate }
    ensures free { c.new.view.work ≡ Free }
{
    match gate.pass(c) {
        Pass::Closed(_) | Pass::Moved(_) => false,
        Pass::Through(_) => {
            gate.base(c);
            gate.flag(c);
            gate.arrive(c);
            true
        }
    }
}

/// How often it passed.
fn serve(served: Served) -> u32 {
    let Served { gate, mut seat } = served;
    let mut count = 0u32;
    'tries: for _try in 0..TRIES {
        if try_once(&gate, &mut seat) {
            count = count.saturating_add(1);
        }
        thread::yield_now();
    }
    count
}

/// Whether the processor that has passed is seen to arrive.
fn arrives(gate: &Gate, m: &mut MonarchSeat) -> bool
    requires mine { m.old.gate ≡ gate.now }
    requires is_shut { IsShut m.old.view.stage }
    ensures mine { m.new.gate ≡ m.old.gate }
    ensures list { m.new.view.list ≡ m.old.view.list }
    ensures idle { result ≡ true → is_idle m.new.view.stage ≡ true }
{
    'looks: for _look in 0..100_000_000u32 {
        match gate.look(m) {
            Look::Arrived => return true,
            Look::NotYet(_) => {}
        }
        thread::yield_now();
    }
    false
}

/// One opening: whether it was passed, and whether it is finished.
fn open_once(gate: &Gate, m: &mut MonarchSeat, apic: u32) -> (bool, bool)
    requires mine { m.old.gate ≡ gate.now }
    requires listed { is_in apic (apics_of m.old.view.list) ≡ true }
    requires idle { is_idle m.old.view.stage ≡ true }
    requires room { opened m.old.view < 0xfffffffe }
    ensures mine { m.new.gate ≡ m.old.gate }
    ensures list { m.new.view.list ≡ m.old.view.list }
    ensures idle { result.1 ≡ true → is_idle m.new.view.stage ≡ true }
{
    gate.name(m, apic);
    thread::yield_now();
    match gate.close(m) {
        Closed::Unpassed => (false, true),
        Closed::Passed => (true, arrives(gate, m)),
    }
}

/// How many openings were found passed.
fn lead(leading: Leading) -> u32 {
    let Leading { gate, mut seat } = leading;
    let mut passed = 0u32;
    'openings: for i in 0..TRIES {
        if seat.opened() >= TRIES {
            break;
        }
        let (was_passed, is_finished) = open_once(&gate, &mut seat, i % 4 + 1);
        if was_passed {
            passed = passed.saturating_add(1);
        }
        if !is_finished {
            break;
        }
    }
    passed
}

fn work(job: Job) -> u32 {
    match job {
        Job::Cpu(served) => serve(served),
        Job::Monarch(leading) => lead(leading),
    }
}

/// Each job on a thread of its own; what each counted, in their order.
fn drill<R: Threads + Sync>(rt: &R, jobs: Vec<Job>) -> Result<Vec<u32>, AllocError> {
    thread::map_vec(rt, jobs, &|job| work(job))
}

const FOUR: [Named; 4] = [
    Named {
        apic: 1,
        base: 0x07f30000,
    },
    Named {
        apic: 2,
        base: 0x07f40000,
    },
    Named {
        apic: 3,
        base: 0x07f50000,
    },
    Named {
        apic: 4,
        base: 0x07f60000,
    },
];

/// The passes that four processors count are the openings that the monarch finds passed, in whatever order their steps fall.
#[test]
fn each_pass_is_of_an_opening_that_was_found_passed(rt: HostRuntime) -> Result<(), Fail> {
    let (gate, mut seat) = Gate::new(rt.alloc(), &FOUR)?;
    let gate = Arc::new(rt.alloc(), gate)?;
    let one = gate.seat(&mut seat);
    let two = gate.seat(&mut seat);
    let three = gate.seat(&mut seat);
    let four = gate.seat(&mut seat);
    let mut jobs = Vec::new(rt.alloc());
    jobs.push(Job::Cpu(Served {
        gate: Arc::try_clone(&gate)?,
        seat: one,
    }))?;
    jobs.push(Job::Cpu(Served {
        gate: Arc::try_clone(&gate)?,
        seat: two,
    }))?;
    jobs.push(Job::Cpu(Served {
        gate: Arc::try_clone(&gate)?,
        seat: three,
    }))?;
    jobs.push(Job::Cpu(Served {
        gate: Arc::try_clone(&gate)?,
        seat: four,
    }))?;
    jobs.push(Job::Monarch(Leading { gate, seat }))?;
    let counts = drill(&rt, jobs)?;
    let [first, second, third, fourth, found] = counts.as_slice() else {
        panic!(rt; "{} counts", counts.len())
    };
    let passes = u64::from(*first) + u64::from(*second) + u64::from(*third) + u64::from(*fourth);
    assert_eq!(rt; passes, u64::from(*found));
    Ok(())
}
