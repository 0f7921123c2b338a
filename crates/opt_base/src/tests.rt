use crate::{
    Blob, Found, GetFault, MemShelf, MemSink, Point, PutFault, Shelf, Sink, SinkFault, SureShelf,
    SureSink,
};
use std::alloc::Global;
use std::process::Abort;
use std::test::Fail;

/// What the shelf has of the path, asked with this limit: the bytes, or a word.
fn seen<S: Shelf>(
    rt: &impl Abort,
    alloc: Global,
    shelf: &mut S,
    path: &str,
    max: u64,
    want: &[u8],
) -> Result<(), GetFault> {
    match shelf.get(alloc, path, max)? {
        Found::Bytes(bytes) => assert_eq!(rt; bytes.as_slice(), want),
        Found::Missing => assert_eq!(rt; b"missing".as_slice(), want),
        Found::TooBig => assert_eq!(rt; b"too big".as_slice(), want),
    }
    Ok(())
}

fn say<O: Sink>(out: &mut O, bytes: &[u8]) -> Result<(), SinkFault> {
    out.put(bytes)
}

#[test]
fn copies_are_kept(rt: HostRuntime) -> Result<(), Fail> {
    let blob = Blob::from_slice(rt.alloc(), b"rice")?;
    assert_eq!(rt; blob.as_slice(), b"rice".as_slice());
    let point = Point::from_slice(rt.alloc(), &[3, -1, 0])?;
    assert_eq!(rt; point.as_slice(), [3, -1, 0].as_slice());
    Ok(())
}

#[test]
fn sure_shelf_keeps_files(rt: HostRuntime) -> Result<(), Fail> {
    let alloc = rt.alloc();
    let mut shelf = SureShelf::new(alloc);
    shelf.load("a", b"rice")?;
    seen(&rt, alloc, &mut shelf, "a", 4, b"rice")?;
    seen(&rt, alloc, &mut shelf, "a", 3, b"too big")?;
    seen(&rt, alloc, &mut shelf, "b", 4, b"missing")?;
    shelf.put("b", b"beans")?;
    shelf.put("b", b"oil")?;
    assert_eq!(rt; shelf.held("a").unwrap_or(b"missing"), b"rice".as_slice());
    assert_eq!(rt; shelf.held("b").unwrap_or(b"missing"), b"oil".as_slice());
    assert!(rt; shelf.held("c").is_none());
    assert_eq!(rt; shelf.faults(), 0);
    Ok(())
}

#[test]
fn mem_shelf_fails_by_its_script(rt: HostRuntime) -> Result<(), Fail> {
    let alloc = rt.alloc();
    let mut shelf = MemShelf::new(alloc, &[2, 4])?;
    shelf.load("a", b"rice")?;
    shelf.load("b", b"beans")?;
    seen(&rt, alloc, &mut shelf, "a", 4, b"rice")?;
    assert_eq!(rt; shelf.put("a", b"oil"), Err(PutFault::Failed));
    assert_eq!(rt; shelf.held("a").unwrap_or(b"missing"), b"rice".as_slice());
    assert_eq!(rt; shelf.faults(), 1);
    shelf.put("a", b"oil")?;
    assert_eq!(rt; shelf.held("a").unwrap_or(b"missing"), b"oil".as_slice());
    assert_eq!(rt;
        seen(&rt, alloc, &mut shelf, "b", 5, b""),
        Err(GetFault::Failed)
    );
    assert_eq!(rt; shelf.faults(), 2);
    seen(&rt, alloc, &mut shelf, "b", 5, b"beans")?;
    assert_eq!(rt; shelf.faults(), 2);
    Ok(())
}

#[test]
fn put_can_be_torn(rt: HostRuntime) -> Result<(), Fail> {
    let alloc = rt.alloc();
    let mut shelf = MemShelf::new(alloc, &[1, 2, 3])?;
    shelf.load("a", b"rice")?;
    shelf.torn(1, 4);
    shelf.torn(2, 3);
    assert_eq!(rt; shelf.put("a", b"beans"), Err(PutFault::Failed));
    assert_eq!(rt; shelf.held("a").unwrap_or(b"missing"), b"rice".as_slice());
    assert_eq!(rt; shelf.put("a", b"beans"), Err(PutFault::Failed));
    assert_eq!(rt; shelf.held("a").unwrap_or(b"missing"), b"bea".as_slice());
    shelf.torn(3, 9);
    assert_eq!(rt; shelf.put("a", b"beans"), Err(PutFault::Failed));
    assert_eq!(rt; shelf.held("a").unwrap_or(b"missing"), b"beans".as_slice());
    assert_eq!(rt; shelf.faults(), 3);
    Ok(())
}

#[test]
fn sinks_keep_what_is_written(rt: HostRuntime) -> Result<(), Fail> {
    let mut sure = SureSink::new(rt.alloc());
    say(&mut sure, b"plan ")?;
    say(&mut sure, b"made\n")?;
    assert_eq!(rt; sure.written(), b"plan made\n".as_slice());
    assert_eq!(rt; sure.faults(), 0);
    let mut sink = MemSink::new(rt.alloc(), &[2])?;
    say(&mut sink, b"plan ")?;
    assert_eq!(rt; say(&mut sink, b"not "), Err(SinkFault::Failed));
    assert_eq!(rt; sink.faults(), 1);
    say(&mut sink, b"made\n")?;
    assert_eq!(rt; sink.written(), b"plan made\n".as_slice());
    Ok(())
}

#[test]
fn faults_are_told(rt: HostRuntime) -> Result<(), Fail> {
    let alloc = rt.alloc();
    assert_eq!(rt;
        GetFault::Failed.to_string(alloc)?.as_str(),
        "a file was not read"
    );
    assert_eq!(rt;
        PutFault::Failed.to_string(alloc)?.as_str(),
        "a file was not written"
    );
    assert_eq!(rt;
        SinkFault::Failed.to_string(alloc)?.as_str(),
        "a stream was not written"
    );
    Ok(())
}
