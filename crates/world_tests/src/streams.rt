// The report and the control input.
use mem_world::{MemSink, MemSource};
use outside::{CallFault, Failed, Sink, Source};
use std::test::Fail;

#[test]
fn a_sink_keeps_what_is_written(rt: HostRuntime) -> Result<(), Fail> {
    let mut sink = MemSink::new(rt.alloc())?;
    assert_eq!(rt; sink.fail(rt.alloc(), 2), Ok(()));
    assert_eq!(rt; sink.write(rt.alloc(), b"one\n"), Ok(()));
    assert_eq!(rt; sink.write(rt.alloc(), b"two\n"), Err(CallFault::Failed));
    assert_eq!(rt; sink.write(rt.alloc(), b"three\n"), Ok(()));
    assert_eq!(rt; sink.bytes(), b"one\nthree\n".as_slice());
    Ok(())
}

#[test]
fn a_source_gives_pieces(rt: HostRuntime) -> Result<(), Fail> {
    let bytes = b"poll\nquit\n".to_vec(rt.alloc())?;
    let mut source = MemSource::new(bytes, 4);
    let mut buf = [0; 8];
    assert_eq!(rt; source.fail(rt.alloc(), 2), Ok(()));
    let reads: [(usize, Result<&[u8], Failed>); 7] = [
        (8, Ok(b"poll")),
        (8, Err(Failed)),
        (3, Ok(b"\nqu")),
        (0, Ok(b"")),
        (8, Ok(b"it\n")),
        (8, Ok(b"")),
        (8, Ok(b"")),
    ];
    for (room, want) in reads {
        let room = room.min(8);
        let read = source.read(&mut buf[..room]);
        assert_eq!(rt; read.is_ok(), want.is_ok());
        if let (Ok(count), Ok(want)) = (read, want) {
            assert!(rt; count <= 8);
            assert_eq!(rt; &buf[..count], want);
        }
    }
    Ok(())
}
