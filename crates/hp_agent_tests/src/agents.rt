//! Agents by their own calls: what they answer, and that one is dropped when its processor is ejected.

use crate::echoes::Echo;
use hp_agent::{Agent, Agents, PenAgent, Script, Voice, voice_for};
use hp_model::{Access, Answer, Steps, VoiceKind};
use hp_test_worlds::{BOTH, platform_of};
use std::alloc::Global;
use std::process::Abort;
use std::sync::Arc;
use std::sync::atomic::{AtomicU32, Ordering};
use std::test::Fail;

const READ: Access = Access::In {
    port: 0xcd8,
    width: 1,
};

const WRITE: Access = Access::Out {
    port: 0xcd8,
    width: 4,
    value: 7,
};

const LOOK: Access = Access::In {
    port: 0x620,
    width: 1,
};

const LOAD: Access = Access::Load {
    addr: 0x30000,
    width: 8,
};

const STORE: Access = Access::Store {
    addr: 0x9f010,
    width: 1,
    value: 1,
};

/// The script `READ`, `WRITE`.
fn two_steps(alloc: Global) -> Result<Steps, Fail> {
    Ok(Steps(vec![in alloc; READ, WRITE]?))
}

/// Asks in turn: the processor, its page, the last answer; and what comes.
fn try_answers<A: Agent>(rt: &impl Abort, agent: &mut A, rows: &[(u32, u32, Answer, Access)]) {
    for (row, (cpu, page, last, want)) in rows.iter().enumerate() {
        assert_eq!(rt; agent.next(*cpu, *page, *last), *want, "row {row}");
    }
}

const OF_A_SCRIPT: [(u32, u32, Answer, Access); 4] = [
    (5, 0, Answer::Quiet, READ),
    (5, 0x9f, Answer::Value(3), WRITE),
    (5, 0x9f, Answer::Value(u64::MAX), Access::Halt),
    (5, 0, Answer::Quiet, Access::Halt),
];

const OF_A_PEN: [(u32, u32, Answer, Access); 7] = [
    (1, 0, Answer::Quiet, Access::Halt),
    (1, 0x9e, Answer::Quiet, Access::Halt),
    (1, 0xa0, Answer::Quiet, Access::Halt),
    (2, 0x9f, Answer::Quiet, STORE),
    (2, 0x9f, Answer::Quiet, Access::Halt),
    (3, 0, Answer::Quiet, Access::Halt),
    (4, 0x9f, Answer::Quiet, Access::Halt),
];

#[test]
fn scripts_say_their_steps_whatever_they_are_asked_and_pens_store_once_at_page_9f(
    rt: HostRuntime,
) -> Result<(), Fail> {
    let mut script = Script::new(two_steps(rt.alloc())?);
    try_answers(&rt, &mut script, &OF_A_SCRIPT);
    let mut pen = PenAgent::new();
    try_answers(&rt, &mut pen, &OF_A_PEN);
    Ok(())
}

#[test]
fn agents_are_made_of_their_kinds_and_one_that_is_not_handed_in_halts(
    rt: HostRuntime,
) -> Result<(), Fail> {
    let alloc = rt.alloc();
    let p = platform_of(alloc, &BOTH)?;
    for (kind, first, second) in [
        (VoiceKind::Script(two_steps(alloc)?), READ, WRITE),
        (
            VoiceKind::Script(Steps(Vec::new(alloc))),
            Access::Halt,
            Access::Halt,
        ),
        (VoiceKind::Pen, STORE, Access::Halt),
        (VoiceKind::Os, LOOK, LOOK),
        (VoiceKind::Seeded(9), LOAD, Access::Nop),
        (VoiceKind::Handed, Access::Halt, Access::Halt),
    ] {
        let mut voice: Voice<PenAgent> = voice_for(alloc, &p, kind)?;
        let rows = [
            (1, 0x9f, Answer::Quiet, first),
            (1, 0x9f, Answer::Quiet, second),
        ];
        try_answers(&rt, &mut voice, &rows);
    }
    Ok(())
}

/// Asks the agents of all places in turn, likewise.
fn try_places<A: Agent>(
    rt: &impl Abort,
    agents: &mut Agents<A>,
    rows: &[(u32, u32, Answer, Access)],
) {
    for (row, (cpu, page, last, want)) in rows.iter().enumerate() {
        assert_eq!(rt; agents.next(*cpu, *page, *last), *want, "row {row}");
    }
}

const PLACES: [(u32, Access); 10] = [
    (0, READ),
    (3, READ),
    (3, WRITE),
    (1, Access::Halt),
    (2, STORE),
    (2, Access::Halt),
    (0, WRITE),
    (0, Access::Halt),
    (4, Access::Halt),
    (u32::MAX, Access::Halt),
];

#[test]
fn each_place_has_an_agent_of_its_own(rt: HostRuntime) -> Result<(), Fail> {
    let alloc = rt.alloc();
    let list = vec![in alloc;
        Some(Voice::Script(Script::new(two_steps(alloc)?))),
        None,
        Some(Voice::Pen(PenAgent::new())),
        Some(Voice::Script(Script::new(two_steps(alloc)?))),
    ]?;
    let mut agents: Agents<PenAgent> = Agents::new(list);
    for (cpu, want) in PLACES {
        try_places(&rt, &mut agents, &[(cpu, 0x9f, Answer::Quiet, want)]);
    }
    Ok(())
}

/// Lets go of what may go to another thread.
fn let_go<T: Send + Drop>(_value: T) {}

const BEFORE_THE_DROP: [(u32, u32, Answer, Access); 6] = [
    (
        0,
        0,
        Answer::Quiet,
        Access::Swap {
            addr: 0,
            expected: 0,
            desired: 0,
        },
    ),
    (
        1,
        0,
        Answer::Quiet,
        Access::Swap {
            addr: 0,
            expected: 1,
            desired: 0,
        },
    ),
    (
        1,
        0xfffff,
        Answer::Value(9),
        Access::Swap {
            addr: 0xfffff,
            expected: 1,
            desired: 10,
        },
    ),
    (
        1,
        0x9f,
        Answer::Value(u64::MAX),
        Access::Swap {
            addr: 0x9f,
            expected: 1,
            desired: 0,
        },
    ),
    (
        0,
        0,
        Answer::Quiet,
        Access::Swap {
            addr: 0,
            expected: 0,
            desired: 0,
        },
    ),
    (2, 0, Answer::Quiet, Access::Halt),
];

const AFTER_THE_DROP: [(u32, u32, Answer, Access); 2] = [
    (0, 0, Answer::Quiet, Access::Halt),
    (
        1,
        0,
        Answer::Quiet,
        Access::Swap {
            addr: 0,
            expected: 1,
            desired: 0,
        },
    ),
];

/// The first is dropped with its processor, and the second with all.
fn try_drops<A: Agent + Send>(
    rt: &impl Abort,
    alloc: Global,
    list: Vec<A>,
    drops: &AtomicU32,
) -> Result<(), Fail> {
    let mut places = Vec::new(alloc);
    for agent in list {
        places.push(Some(Voice::Handed(agent)))?;
    }
    let mut agents = Agents::new(places);
    try_places(rt, &mut agents, &BEFORE_THE_DROP);
    assert_eq!(rt; drops.load(Ordering::SeqCst), 0);
    for _ in 0..2 {
        agents.drop_of(0);
        agents.drop_of(2);
        assert_eq!(rt; drops.load(Ordering::SeqCst), 1);
        try_places(rt, &mut agents, &AFTER_THE_DROP);
    }
    let_go(agents);
    assert_eq!(rt; drops.load(Ordering::SeqCst), 2);
    Ok(())
}

#[test]
fn a_boxed_agent_is_asked_until_it_is_dropped(rt: HostRuntime) -> Result<(), Fail> {
    let asked = Arc::new(rt.alloc(), AtomicU32::new(0))?;
    let drops = Arc::new(rt.alloc(), AtomicU32::new(0))?;
    let mut list: Vec<Box<dyn Agent + Send>> = Vec::new(rt.alloc());
    for _place in 0..2 {
        let agent = Echo::new(Arc::try_clone(&asked)?, Arc::try_clone(&drops)?);
        list.push(Box::new(rt.alloc(), agent)?)?;
    }
    try_drops(&rt, rt.alloc(), list, &drops)?;
    assert_eq!(rt; asked.load(Ordering::SeqCst), 7);
    Ok(())
}
