//! An agent that is handed in.

ghost use Rattle.std.specs.Prelude.{None};

use hp_agent::Agent;
use hp_model::{Access, Answer};
use http_server::Log;
use std::alloc::Global;
use std::sync::Arc;
use std::sync::atomic::{AtomicU32, Ordering};

/// Counts its questions and its drops, and says what it is asked: its page, its processor, and one more than the value that
/// it was answered last, 0 where there was none.
pub(crate) struct Echo {
    asked: Arc<AtomicU32, Global>,
    drops: Arc<AtomicU32, Global>,
    log: Log<(u32, u32, Answer), Access>,
}

impl Echo {
    /// Counts its questions here and its drops there.
    pub(crate) fn new(asked: Arc<AtomicU32, Global>, drops: Arc<AtomicU32, Global>) -> Echo {
        Echo {
            asked,
            drops,
            log: Log::new(),
        }
    }
}

impl Drop for Echo {
    fn drop(self) {
        self.drops.fetch_add(1, Ordering::SeqCst);
        let Self {
            asked: _,
            drops: _,
            log: _,
        } = self;
    }
}

impl Agent for Echo {
    ghost voice = { λ _. None };

    ghost heard = { λ e. e.log.items };

    fn next(&mut self, cpu: u32, page: u32, last: Answer) -> Access {
        self.asked.fetch_add(1, Ordering::SeqCst);
        let desired = match last {
            Answer::Quiet => 0,
            Answer::Value(value) => value.wrapping_add(1),
        };
        let access = Access::Swap {
            addr: page,
            expected: u64::from(cpu),
            desired,
        };
        self.log = self.log.and(&(cpu, page, last), &access);
        access
    }
}
