//! Cases on the borders of the ports in memory, and each other port once.
ghost use Rattle.std.specs.Prelude.{◌≤◌};

use io_ports::{
    BrokenSink, BrokenSource, DropSink, Failed, InFault, MemSink, MemSource, ReadSource, Sink,
    SureSource, WriteFault, WriteSink, put, read_all,
};
use std::alloc::Global;
use std::io::Write;
use std::process::Abort;
use std::test::Fail;

// What `read_all` makes of six bytes, in reads of that step that fail where `failing` says.
fn read_six(alloc: Global, step: usize, failing: &[u64], limit: u64) -> Result<Vec<u8>, InFault>
    requires { 1 ≤ step }
{
    let bytes = Vec::from_slice(alloc, b"abcdef").map_err(|_| InFault::Memory)?;
    let failing = Vec::from_slice(alloc, failing).map_err(|_| InFault::Memory)?;
    let mut source = MemSource::new(bytes, step, failing);
    read_all(alloc, &mut source, limit)
}

// What a sink of that room holds after `put` of six bytes, and whether all were put.
fn put_six(
    alloc: Global,
    room: usize,
    step: usize,
    failing: &[u64],
) -> Result<(bool, Vec<u8>), Fail>
    requires { 1 ≤ step }
{
    let failing = Vec::from_slice(alloc, failing)?;
    let mut sink = MemSink::with_room(alloc, room, step, failing)?;
    let done = put(&mut sink, b"abcdef").is_ok();
    Ok((done, Vec::from_slice(alloc, sink.held())?))
}

// These reads give all six bytes.
fn all_are_read(rt: &impl Abort, alloc: Global, step: usize, failing: &[u64]) -> Result<(), Fail>
    requires { 1 ≤ step }
{
    let bytes = read_six(alloc, step, failing, 6)?;
    assert_eq!(rt; bytes.as_slice(), b"abcdef".as_slice());
    Ok(())
}

#[test]
fn reads_to_the_end(rt: HostRuntime) -> Result<(), Fail> {
    all_are_read(&rt, rt.alloc(), 1, &[])?;
    all_are_read(&rt, rt.alloc(), 4, &[4])
}

#[test]
fn reads_that_stop(rt: HostRuntime) {
    let alloc = rt.alloc();
    assert_eq!(rt;
        [
            read_six(alloc, 1, &[], 5).err(),
            read_six(alloc, 100, &[], 0).err(),
            read_six(alloc, 4, &[2], 6).err(),
            read_all(alloc, &mut BrokenSource::new(), 3).err()
        ],
        [
            Some(InFault::Long),
            Some(InFault::Long),
            Some(InFault::ReadFault),
            Some(InFault::ReadFault)
        ]
    );
}

#[test]
fn reads_a_sure_source(rt: HostRuntime) -> Result<(), Fail> {
    let mut sure = SureSource::new(Vec::from_slice(rt.alloc(), b"abc")?);
    let bytes = read_all(rt.alloc(), &mut sure, 3)?;
    assert_eq!(rt; bytes.as_slice(), b"abc".as_slice());
    Ok(())
}

// A room, a step and a write that fails; and whether all is put, and how much.
fn put_is(
    rt: &impl Abort,
    alloc: Global,
    (room, step, failing): (usize, usize, u64),
    done: bool,
    count: usize,
) -> Result<(), Fail> {
    let got = put_six(alloc, room, step.max(1), &[failing])?;
    assert_eq!(rt;
        (got.0, got.1.as_slice()),
        (done, &b"abcdef"[..count.min(6)]),
        "room {room} step {step}"
    );
    Ok(())
}

#[test]
fn puts_what_fits(rt: HostRuntime) -> Result<(), Fail> {
    let alloc = rt.alloc();
    put_is(&rt, alloc, (6, 6, 0), true, 6)?;
    put_is(&rt, alloc, (6, 1, 0), true, 6)?;
    put_is(&rt, alloc, (4, 3, 0), false, 4)?;
    put_is(&rt, alloc, (9, 1, 3), false, 2)?;
    put_is(&rt, alloc, (0, 1, 0), false, 0)
}

// A writer that takes nothing, and can hand nothing on.
#[derive(Drop)]
struct Stuck;

impl Write for Stuck {
    fn write(&mut self, _buf: &[u8]) -> std::io::Result<usize> {
        Ok(0)
    }

    fn flush(&mut self) -> std::io::Result<()> {
        Err(std::io::ErrorKind::BrokenPipe.into())
    }
}

#[test]
fn adapts_readers(rt: HostRuntime) -> Result<(), Fail> {
    let text: &[u8] = b"from a reader";
    let bytes = read_all(rt.alloc(), &mut ReadSource::new(text), 13)?;
    assert_eq!(rt; bytes.as_slice(), text);
    Ok(())
}

#[test]
fn adapts_writers(rt: HostRuntime) {
    let mut written = Vec::new(rt.alloc());
    let done = put(&mut WriteSink::new(&mut written), b"to a writer");
    assert_eq!(rt;
        (done, written.as_slice()),
        (Ok(()), b"to a writer".as_slice())
    );
}

#[test]
fn other_sinks(rt: HostRuntime) {
    assert_eq!(rt;
        [
            put(&mut DropSink, b"abc"),
            put(&mut BrokenSink::new(), b"abc"),
            put(&mut WriteSink::new(Stuck), b"a")
        ],
        [Ok(()), Err(WriteFault), Err(WriteFault)]
    );
}

#[test]
fn flushes(rt: HostRuntime) {
    assert_eq!(rt;
        [
            DropSink.flush(),
            BrokenSink::new().flush(),
            WriteSink::new(Stuck).flush()
        ],
        [Ok(()), Err(Failed), Err(Failed)]
    );
}
