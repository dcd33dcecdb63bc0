//! The edge to std's reader and writer, sources and sinks that are sure, and statuses that no run ends with yet.

use hp_model::BootFact;
use hp_top::{Sink, Source, Status, StdSink, StdSource, SureSink, SureSource, Why, top};
use std::alloc::Global;
use std::test::Fail;

/// A file whose boot is refused at its fourth access.
const FILE: &[u8] = b"[platform]
apic = [0]
boot = [0]
low_memory = 0x1000000
tseg_mib = 1
features = 7
polls = 8
turns = 8
modern = false
";

/// What the sink held before, and what is written.
const WRITTEN: &[u8] = b"held
platform apic=0 boot=0 low=01000000 tseg=1 features=7 polls=8 turns=8 modern=false smram=true delivery=prompt
p0 out 4 0cd8 00000000
p0 out 4 0cd8 00000000
p0 out 1 0cdd 00
p0 in 4 0cd8 = 00000001
";

fn run<S: Source, K: Sink>(alloc: Global, src: &mut S, out: &mut K) -> Result<Status, Fail> {
    let mut words = Vec::new(alloc);
    words.push("run".to_string(alloc)?)?;
    Ok(top(alloc, words.as_slice(), src, out, Vec::new(alloc)))
}

#[test]
fn bytes_pass_the_edge_as_they_pass_memory(rt: HostRuntime) -> Result<(), Fail> {
    let alloc = rt.alloc();
    let refused = Status::BootRefused(BootFact::NotModern(1));
    let mut held = b"held\n".to_vec(alloc)?;
    let status = run(
        alloc,
        &mut StdSource::new(FILE),
        &mut StdSink::new(&mut held),
    )?;
    assert_eq!(rt; status, refused);
    assert_eq!(rt; held.as_slice(), WRITTEN);
    let mut out = SureSink::new(b"held\n".to_vec(alloc)?);
    let status = run(alloc, &mut SureSource::new(FILE.to_vec(alloc)?), &mut out)?;
    assert_eq!(rt; status, refused);
    assert_eq!(rt; out.held(), WRITTEN);
    Ok(())
}

#[test]
fn statuses_that_no_run_ends_with_have_texts(rt: HostRuntime) -> Result<(), Fail> {
    for (status, code, want) in [
        (
            Status::TraceRefused(36, Why::Step),
            9,
            "trace refused at line 36: step",
        ),
        (
            Status::TraceRefused(84, Why::End),
            9,
            "trace refused at line 84: end",
        ),
        (
            Status::TraceRefused(2, Why::Line),
            9,
            "trace refused at line 2: line",
        ),
        (Status::NoMemory, 10, "no memory"),
    ] {
        assert_eq!(rt; status.code(), code, "{want}");
        let text = format!(in rt.alloc(); "{status}")?;
        assert_eq!(rt; text.as_str(), want);
    }
    Ok(())
}
