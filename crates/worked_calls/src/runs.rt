//! Whole runs: by a schedule, by a thread for each CPU, and what a record comes to.

use crate::texts::{RECORD, SCHEDULE, SCRIPTS, SETTINGS, written};
use auditor::{Verdict, audit};
use cpu_worker::{OpenGate, report, run, simulate};
use event_log::Plain;
use log_merge::{merge, write_merged};
use scripts::{ReadSettings, Record, Schedule, Scripts, Settings};
use std::alloc::Global;
use std::sync::Wait;
use std::test::Fail;
use std::thread::Threads;

fn simulated(alloc: Global) -> Result<Record, Fail> {
    let settings = Settings::read(alloc, SETTINGS.as_bytes())?;
    let scripts = Scripts::read(alloc, SCRIPTS.as_bytes(), &settings)?;
    let schedule = Schedule::read(alloc, SCHEDULE.as_bytes(), &settings)?;
    Ok(simulate(alloc, &settings, &scripts, &schedule)?)
}

#[test]
fn a_simulation(rt: HostRuntime) -> Result<(), Fail> {
    let text = written(rt.alloc(), &simulated(rt.alloc())?)?;
    assert!(rt; text.as_slice() == RECORD.as_bytes());
    Ok(())
}

fn run_on_threads<R: Threads + Wait + Sync>(rt: &R, alloc: Global) -> Result<Record, Fail> {
    let settings = Settings::read(alloc, SETTINGS.as_bytes())?;
    let scripts = Scripts::read(alloc, SCRIPTS.as_bytes(), &settings)?;
    Ok(run(rt, alloc, &settings, &scripts, &OpenGate)?)
}

#[test]
fn a_run_is_sound(rt: HostRuntime) -> Result<(), Fail> {
    let record = run_on_threads(&rt, rt.alloc())?;
    let verdict = audit(rt.alloc(), &record)?;
    assert!(rt; verdict == Verdict::Sound);
    Ok(())
}

#[test]
fn a_report(rt: HostRuntime) -> Result<(), Fail> {
    let record = Record::read(rt.alloc(), RECORD.as_bytes())?;
    let text = report(rt.alloc(), &record)?;
    assert!(rt; text.as_str() == "q0 mcs entries 2 noroom 0 looks 1 most 1\ncpus 2 entries 2\n");
    Ok(())
}

fn merged(alloc: Global) -> Result<Vec<u8>, Fail> {
    let record = Record::read(alloc, RECORD.as_bytes())?;
    let merged = merge(alloc, &record)?;
    let mut out = Plain::new(Vec::new(alloc));
    write_merged(&record, &merged, &mut out)?;
    Ok(out.inner)
}

#[test]
fn entries_in_one_order(rt: HostRuntime) -> Result<(), Fail> {
    let text = merged(rt.alloc())?;
    assert!(rt; text.as_slice() == b"0 q0 enq 3 = ok\n1 q0 deq = thread 3\n".as_slice());
    Ok(())
}
