use super::*;
use std::alloc::{AllocError, Global};
use std::io::{self, ErrorKind, Read, Write};
use std::test::Fail;

const TEXT: [u8; 11] = *b"mode served";

fn source(alloc: Global, piece: usize, fails: &[u64]) -> Result<ByteSource, AllocError> {
    let bytes = TEXT.to_vec(alloc)?;
    Ok(ByteSource::new(bytes, piece.max(1), fails.to_vec(alloc)?))
}

#[test]
fn a_source_in_pieces_is_read_whole(rt: HostRuntime) -> Result<(), Fail> {
    let alloc = rt.alloc();
    for piece in [1, 2, 7, 100] {
        let mut src = source(alloc, piece, &[])?;
        let bytes = read_all(alloc, &mut src, 11)?;
        assert_eq!(rt; bytes.as_slice(), TEXT.as_slice(), "in pieces of {piece}");
        assert_eq!(rt; src.faults(), 0);
    }
    Ok(())
}

#[test]
fn each_read_fails_in_turn(rt: HostRuntime) -> Result<(), Fail> {
    let alloc = rt.alloc();
    // the reads that take bytes, and the one that finds the end
    for (piece, reads) in [(1, 12), (2, 7), (7, 3), (100, 2)] {
        for number in 1..=reads {
            let mut src = source(alloc, piece, &[number])?;
            let answer = read_all(alloc, &mut src, 11).err();
            assert_eq!(rt;
                answer,
                Some(ReadAll::ReadFault { faults: 1 }),
                "read {number} of {piece}"
            );
        }
        let mut src = source(alloc, piece, &[reads + 1])?;
        assert_eq!(rt; read_all(alloc, &mut src, 11)?.len(), 11);
    }
    Ok(())
}

#[test]
fn a_reading_goes_on_after_its_faults(rt: HostRuntime) -> Result<(), Fail> {
    let alloc = rt.alloc();
    let mut src = source(alloc, 7, &[2, 3])?;
    let first = read_all(alloc, &mut src, 11).err();
    assert_eq!(rt; first, Some(ReadAll::ReadFault { faults: 1 }));
    let second = read_all(alloc, &mut src, 11).err();
    assert_eq!(rt; second, Some(ReadAll::ReadFault { faults: 2 }));
    assert_eq!(rt;
        read_all(alloc, &mut src, 11)?.as_slice(),
        b"rved".as_slice()
    );
    assert_eq!(rt; src.faults(), 2);
    Ok(())
}

#[test]
fn a_source_past_the_limit_is_too_long(rt: HostRuntime) -> Result<(), Fail> {
    let alloc = rt.alloc();
    for (piece, limit) in [(1, 10), (2, 10), (7, 6), (100, 0)] {
        let mut src = source(alloc, piece, &[])?;
        let answer = read_all(alloc, &mut src, limit).err();
        assert_eq!(rt;
            answer,
            Some(ReadAll::TooLong { limit }),
            "in pieces of {piece}"
        );
    }
    let mut empty = ByteSource::new(Vec::new(alloc), 1, Vec::new(alloc));
    assert!(rt; read_all(alloc, &mut empty, 0)?.is_empty());
    Ok(())
}

#[test]
fn each_write_fails_in_turn(rt: HostRuntime) -> Result<(), Fail> {
    let alloc = rt.alloc();
    for (number, held) in [
        (1, "".as_bytes()),
        (2, b"mode served"),
        (3, b"mode servedmode served"),
    ] {
        let mut sink = ByteSink::new(alloc, [number].to_vec(alloc)?);
        for _ in 1..number {
            write_all(&mut sink, &TEXT)?;
        }
        let fault = WriteAll::WriteFault {
            written: 0,
            faults: 1,
        };
        assert_eq!(rt; write_all(&mut sink, &TEXT), Err(fault), "write {number}");
        assert_eq!(rt; sink.bytes(), held);
        assert_eq!(rt; sink.faults(), 1);
    }
    Ok(())
}

// A reader that fails at its first read, and then is at its end.
#[derive(Drop)]
struct Broken {
    is_new: bool,
}

impl Read for Broken {
    fn read(&mut self, _buf: &mut [u8]) -> io::Result<usize> {
        if self.is_new {
            self.is_new = false;
            return Err(io::Error::from(ErrorKind::BrokenPipe));
        }
        Ok(0)
    }
}

#[test]
fn a_reader_is_a_source(rt: HostRuntime) -> Result<(), Fail> {
    let alloc = rt.alloc();
    let mut src = StdSource::new(TEXT.as_slice());
    assert_eq!(rt; read_all(alloc, &mut src, 11)?.as_slice(), TEXT.as_slice());
    assert_eq!(rt; src.faults(), 0);

    let mut broken = StdSource::new(Broken { is_new: true });
    let answer = read_all(alloc, &mut broken, 11).err();
    assert_eq!(rt; answer, Some(ReadAll::ReadFault { faults: 1 }));
    assert!(rt; read_all(alloc, &mut broken, 11)?.is_empty());
    Ok(())
}

#[test]
fn a_writer_is_a_sink(rt: HostRuntime) -> Result<(), Fail> {
    let alloc = rt.alloc();
    let mut held = Vec::new(alloc);
    let mut sink = StdSink::new(&mut held);
    write_all(&mut sink, &TEXT)?;
    sink.flush()?;
    assert_eq!(rt; sink.faults(), 0);
    assert_eq!(rt; held.as_slice(), TEXT.as_slice());
    Ok(())
}

#[test]
fn a_full_writer_is_a_fault(rt: HostRuntime) -> Result<(), Fail> {
    let mut room = [0; 4];
    let mut sink = StdSink::new(room.as_mut_slice());
    let fault = WriteAll::WriteFault {
        written: 4,
        faults: 1,
    };
    assert_eq!(rt; write_all(&mut sink, &TEXT), Err(fault));
    assert_eq!(rt; room, *b"mode");
    Ok(())
}

// A writer that passes nothing on before it is flushed, which it can be once.
#[derive(Drop)]
struct Holding {
    was_flushed: bool,
}

impl Write for Holding {
    fn write(&mut self, buf: &[u8]) -> io::Result<usize> {
        Ok(buf.len().min(3))
    }

    fn flush(&mut self) -> io::Result<()> {
        if self.was_flushed {
            return Err(io::Error::from(ErrorKind::BrokenPipe));
        }
        self.was_flushed = true;
        Ok(())
    }
}

#[test]
fn a_sink_is_flushed_when_asked(rt: HostRuntime) -> Result<(), Fail> {
    let mut writer = Holding { was_flushed: false };
    let mut sink = StdSink::new(&mut writer);
    write_all(&mut sink, &TEXT)?;
    sink.flush()?;
    assert_eq!(rt; sink.flush(), Err(Failed));
    assert_eq!(rt; sink.faults(), 1);
    assert!(rt; writer.was_flushed);
    Ok(())
}
