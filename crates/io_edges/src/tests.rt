//! Each fault and each limit of the source and the sink in memory, and the loops over them.
use crate::{
    Failed, MemorySink, MemorySource, ReadFault, Sink, Source, StdSink, StdSource, give_all,
    read_to_end,
};
use std::alloc::{AllocError, Global};
use std::test::Fail;

// Takes into that many places of the buffer.
fn take_into(source: &mut MemorySource, buf: &mut [u8], room: usize) -> Result<usize, Failed> {
    let room = room.min(buf.len());
    source.take(&mut buf[..room])
}

#[test]
fn a_source_in_memory_gives_in_order(rt: HostRuntime) -> Result<(), Fail> {
    let alloc = rt.alloc();
    let mut source = MemorySource::new(vec![in alloc; 7u8; 5000]?, vec![in alloc; 2u64, 6]?);
    let mut buf = [0u8; 8192];
    for (room, want, left) in [
        (10, Ok(10), 4990),
        (8192, Err(Failed), 4990),
        (0, Ok(0), 4990),
        (8192, Ok(4096), 894),
        (8192, Ok(894), 0),
        (8192, Err(Failed), 0),
        (8192, Ok(0), 0),
    ] {
        let got = take_into(&mut source, &mut buf, room);
        assert_eq!(rt; got, want);
        assert_eq!(rt; source.left().len(), left);
    }
    assert_eq!(rt; source.calls(), 7);
    assert_eq!(rt; source.faults(), 2);
    Ok(())
}

#[test]
fn a_sink_in_memory_holds_its_room(rt: HostRuntime) -> Result<(), Fail> {
    let alloc = rt.alloc();
    let bytes = [7u8; 8192];
    let mut sink = MemorySink::new(alloc, 5000, vec![in alloc; 2u64]?)?;
    for (length, want, held) in [
        (10, Ok(10), 10),
        (8192, Err(Failed), 10),
        (0, Ok(0), 10),
        (8192, Ok(4096), 4106),
        (8192, Ok(894), 5000),
        (1, Err(Failed), 5000),
        (0, Ok(0), 5000),
    ] {
        let got = sink.give(&bytes[..length.min(8192)]);
        assert_eq!(rt; got, want);
        assert_eq!(rt; sink.bytes().len(), held);
    }
    assert_eq!(rt; sink.calls(), 7);
    assert_eq!(rt; sink.faults(), 2);
    assert_eq!(rt; sink.into_bytes().len(), 5000);
    Ok(())
}

// The numbers 0 to 249, over and over.
fn counting(alloc: Global, length: usize) -> Result<Vec<u8>, AllocError> {
    let mut bytes = Vec::new(alloc);
    for i in 0..length {
        bytes.push((i % 250) as u8)?;
    }
    Ok(bytes)
}

#[test]
fn a_source_is_read_to_its_end(rt: HostRuntime) -> Result<(), Fail> {
    let alloc = rt.alloc();
    let bytes = counting(alloc, 10_000)?;
    for (fails, limit, want) in [
        (9, 10_000, None),
        (9, 9_999, Some(ReadFault::TooLong)),
        (9, 0, Some(ReadFault::TooLong)),
        (2, 10_000, Some(ReadFault::Failed)),
        (4, 10_000, Some(ReadFault::Failed)),
        (2, 4095, Some(ReadFault::TooLong)),
    ] {
        let mut source = MemorySource::new(bytes.clone()?, vec![in alloc; fails]?);
        match read_to_end(alloc, &mut source, limit) {
            Ok(read) => {
                assert_eq!(rt; want, None);
                assert_eq!(rt; read.as_slice(), bytes.as_slice());
            }
            Err(fault) => assert_eq!(rt; want, Some(fault)),
        }
    }
    Ok(())
}

#[test]
fn all_bytes_are_given_or_a_front(rt: HostRuntime) -> Result<(), Fail> {
    let alloc = rt.alloc();
    let bytes = counting(alloc, 10_000)?;
    for (fails, room, want, held) in [
        (9, 10_000, Ok(()), 10_000),
        (9, 9_999, Err(Failed), 9_999),
        (9, 0, Err(Failed), 0),
        (1, 10_000, Err(Failed), 0),
        (2, 10_000, Err(Failed), 4096),
        (3, 10_000, Err(Failed), 8192),
    ] {
        let mut sink = MemorySink::new(alloc, room, vec![in alloc; fails]?)?;
        let given = give_all(&mut sink, bytes.as_slice());
        assert_eq!(rt; given, want);
        assert_eq!(rt; sink.bytes().len(), held);
        assert!(rt; bytes.as_slice().starts_with(sink.bytes()));
    }
    Ok(())
}

#[test]
fn standard_input_and_output_move_bytes(rt: HostRuntime) -> Result<(), Fail> {
    let mut source = StdSource::new(rt.stdin());
    assert_eq!(rt; source.take(&mut []), Ok(0));
    let mut sink = StdSink::new(rt.alloc(), rt.stdout())?;
    assert_eq!(rt; give_all(&mut sink, b"io_edges\n"), Ok(()));
    assert_eq!(rt; sink.flush(), Ok(()));
    Ok(())
}
