//! Texts: settings and a record are read, and the record is written as it was. Scripts and a schedule are read by `runs`.

use event_log::Plain;
use scripts::{ReadSettings, Record, Settings, write_record};
use std::alloc::Global;
use std::test::Fail;

pub const SETTINGS: &str = "cpus = 2
object = [{ name = 'q0', kind = 'queue', lock = 'mcs', events = 100, threads = 8 }]
";

/// What its simulation by the schedule leaves, in which CPU 1 waits for CPU 0.
pub const RECORD: &str = "record 2
cpus 2
objects 1
object q0 mcs 100 queue 8
log q0 2
0 enq 3 = ok
1 deq = thread 3
cpu 0 1
q0 0 enq 3 | enq 3 = ok
cpu 1 1
q0 1 deq | deq = thread 3
end
";

pub const SCRIPTS: &str = "0 q0 enq 3\n1 q0 deq\n";

pub const SCHEDULE: &str = "0 0 1 1 0 0 0 1 1 0 0 1 1 1\n";

/// What is written of the record.
pub fn written(alloc: Global, record: &Record) -> Result<Vec<u8>, Fail> {
    let mut out = Plain::new(Vec::new(alloc));
    write_record(record, &mut out)?;
    Ok(out.inner)
}

#[test]
fn settings_are_read(rt: HostRuntime) -> Result<(), Fail> {
    let settings = Settings::read(rt.alloc(), SETTINGS.as_bytes())?;
    assert_eq!(rt; (settings.cpus(), settings.objects().len()), (2, 1));
    Ok(())
}

#[test]
fn a_record_is_read_and_written(rt: HostRuntime) -> Result<(), Fail> {
    let text = written(rt.alloc(), &Record::read(rt.alloc(), RECORD.as_bytes())?)?;
    assert!(rt; text.as_slice() == RECORD.as_bytes());
    Ok(())
}
