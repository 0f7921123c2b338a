ghost use Rattle.std.specs.Prelude.{◌≡◌, IfOk};

use crate::{MEMORY, OUTSIDE, Reply, deliver};
use opt_base::{Blob, MemShelf, MemSink, OutOfMemory, Shelf, Sink, SureShelf, SureSink};
use std::alloc::Global;
use std::process::Abort;
use std::test::Fail;

/// Two puts at `a` with one at `b` between them, and bytes for both sinks.
fn reply_of(alloc: Global) -> Result<Reply, OutOfMemory>
    ensures { IfOk result (λ reply. reply.status ≡ 2) }
{
    let mut reply = Reply::new(alloc, 2);
    reply.add_put("a", Blob::from_slice(alloc, b"rice")?)?;
    reply.add_put("b", Blob::from_slice(alloc, b"oil")?)?;
    reply.add_put("a", Blob::from_slice(alloc, b"beans")?)?;
    reply.print(b"plan ")?;
    reply.print(b"made\n")?;
    reply.refuse(b"late\n")?;
    Ok(reply)
}

fn assert_holds(rt: &impl Abort, shelf: &MemShelf, a: &[u8], b: &[u8]) {
    assert_eq!(rt; shelf.held("a").unwrap_or(b"missing"), a);
    assert_eq!(rt; shelf.held("b").unwrap_or(b"missing"), b);
}

#[test]
fn a_reply_is_given_whole(rt: HostRuntime) -> Result<(), Fail> {
    let alloc = rt.alloc();
    let reply = reply_of(alloc)?;
    let mut shelf = SureShelf::new(alloc);
    let mut out = SureSink::new(alloc);
    let mut err = SureSink::new(alloc);
    assert_eq!(rt; deliver(&reply, &mut shelf, &mut out, &mut err), 2);
    assert_eq!(rt; shelf.held("a").unwrap_or(b"missing"), b"beans".as_slice());
    assert_eq!(rt; shelf.held("b").unwrap_or(b"missing"), b"oil".as_slice());
    assert_eq!(rt; out.written(), b"plan made\n".as_slice());
    assert_eq!(rt; err.written(), b"late\n".as_slice());
    assert!(rt; MEMORY == 5);
    Ok(())
}

#[test]
fn a_failed_put_ends_it(rt: HostRuntime) -> Result<(), Fail> {
    let alloc = rt.alloc();
    let reply = reply_of(alloc)?;
    for number in 1..4u64 {
        let mut shelf = MemShelf::new(alloc, &[number])?;
        let mut out = MemSink::new(alloc, &[])?;
        let mut err = MemSink::new(alloc, &[])?;
        assert_eq!(rt; deliver(&reply, &mut shelf, &mut out, &mut err), OUTSIDE);
        match number {
            1 => assert_holds(&rt, &shelf, b"missing", b"missing"),
            2 => assert_holds(&rt, &shelf, b"rice", b"missing"),
            _ => assert_holds(&rt, &shelf, b"rice", b"oil"),
        }
        assert_eq!(rt; shelf.faults(), 1);
        assert_eq!(rt; out.written(), b"".as_slice());
        assert_eq!(rt; err.written(), b"".as_slice());
    }
    Ok(())
}

#[test]
fn a_failed_sink_ends_it(rt: HostRuntime) -> Result<(), Fail> {
    let alloc = rt.alloc();
    let reply = reply_of(alloc)?;
    let mut shelf = MemShelf::new(alloc, &[])?;
    let mut broken = MemSink::new(alloc, &[1, 2])?;
    let mut other = MemSink::new(alloc, &[])?;
    assert_eq!(rt;
        deliver(&reply, &mut shelf, &mut broken, &mut other),
        OUTSIDE
    );
    assert_holds(&rt, &shelf, b"beans", b"oil");
    assert_eq!(rt; other.written(), b"".as_slice());
    assert_eq!(rt;
        deliver(&reply, &mut shelf, &mut other, &mut broken),
        OUTSIDE
    );
    assert_eq!(rt; other.written(), b"plan made\n".as_slice());
    assert_eq!(rt; broken.written(), b"".as_slice());
    assert_eq!(rt; broken.faults(), 2);

    // Where there is nothing to write, nothing is called.
    let silent = Reply::new(alloc, 1);
    let mut broken = MemSink::new(alloc, &[1])?;
    let mut also_broken = MemSink::new(alloc, &[1])?;
    assert_eq!(rt;
        deliver(&silent, &mut shelf, &mut broken, &mut also_broken),
        1
    );
    Ok(())
}
