use four_state::{NoMemory, Text};
use std::alloc::Global;
use std::io::Write;
use std::test::Fail;
use std::{fs, io};
use vera_io::{
    DirShelf, MemoryShelf, MemorySink, ReadAll, Shelf, ShelfFailed, Sink, SinkFailed, StreamSink,
    read_all, write_all,
};

/// A shelf with one file.
fn one_file(
    alloc: Global,
    name: &[u8],
    bytes: Vec<u8>,
    failing: Vec<u64>,
) -> Result<MemoryShelf, NoMemory> {
    let mut files = Vec::new(alloc);
    files.push((Text::from_slice(alloc, name)?, bytes))?;
    Ok(MemoryShelf::new(files, failing))
}

#[test]
fn of_two_files_of_one_name_the_first_counts(rt: HostRuntime) -> Result<(), Fail> {
    let alloc = rt.alloc();
    let mut files = Vec::new(alloc);
    for bytes in ["one", "second"] {
        files.push((
            Text::from_slice(alloc, b"a")?,
            bytes.as_bytes().to_vec(alloc)?,
        ))?;
    }
    let mut shelf = MemoryShelf::new(files, Vec::new(alloc));
    let mut buf = *b"........";
    assert_eq!(rt; shelf.read_at(b"a", 1, &mut buf), Ok(2));
    assert_eq!(rt; buf.as_slice(), b"ne......".as_slice());
    assert_eq!(rt; shelf.read_at(b"a", 3, &mut buf), Ok(0));
    assert_eq!(rt; shelf.read_at(b"a", 0, &mut buf[..2]), Ok(2));
    assert_eq!(rt; buf.as_slice(), b"on......".as_slice());
    Ok(())
}

#[test]
fn a_missing_name_and_a_failing_call_fail(rt: HostRuntime) -> Result<(), Fail> {
    let alloc = rt.alloc();
    let mut shelf = one_file(alloc, b"a", b"abc".to_vec(alloc)?, vec![in alloc; 2, 3]?)?;
    let mut buf = [0; 4];
    assert_eq!(rt; shelf.read_at(b"b", 0, &mut buf), Err(ShelfFailed));
    assert_eq!(rt; shelf.read_at(b"a", 0, &mut buf), Err(ShelfFailed));
    assert_eq!(rt; shelf.read_at(b"a", 0, &mut buf), Err(ShelfFailed));
    assert_eq!(rt; shelf.read_at(b"a", 0, &mut buf), Ok(3));
    Ok(())
}

#[test]
fn a_file_is_read_up_to_the_limit(rt: HostRuntime) -> Result<(), Fail> {
    let alloc = rt.alloc();
    for (len, limit, want) in [
        (0, 0, None),
        (3, 3, None),
        (3, 2, Some(ReadAll::TooLong)),
        (1, 0, Some(ReadAll::TooLong)),
        (200_000, 200_000, None),
        (200_000, 199_999, Some(ReadAll::TooLong)),
    ] {
        let mut shelf = one_file(alloc, b"a", vec![in alloc; 0; len]?, Vec::new(alloc))?;
        match read_all(alloc, &mut shelf, b"a", limit) {
            Ok(bytes) => {
                assert_eq!(rt; want, None, "{len} bytes, limit {limit}");
                assert_eq!(rt; bytes.len(), len);
            }
            Err(error) => {
                assert_eq!(rt; want, Some(error), "{len} bytes, limit {limit}");
            }
        }
    }
    Ok(())
}

#[test]
fn a_failing_second_call_fails_the_whole(rt: HostRuntime) -> Result<(), Fail> {
    let alloc = rt.alloc();
    for (name, number, want) in [
        ("a", 1, Some(ReadAll::Failed)),
        ("a", 2, Some(ReadAll::Failed)),
        ("a", 3, None),
        ("b", 3, Some(ReadAll::Failed)),
    ] {
        let failing = vec![in alloc; number]?;
        let mut shelf = one_file(alloc, b"a", b"abc".to_vec(alloc)?, failing)?;
        let read = read_all(alloc, &mut shelf, name.as_bytes(), 10);
        assert_eq!(rt; read.err(), want, "call {number} for {name}");
    }
    Ok(())
}

#[test]
fn a_sink_takes_its_step_up_to_its_room(rt: HostRuntime) -> Result<(), Fail> {
    let alloc = rt.alloc();
    let mut sink = MemorySink::new(alloc, 10, 4, vec![in alloc; 2]?)?;
    assert_eq!(rt; sink.write(b"abcdef"), Ok(4));
    assert_eq!(rt; sink.write(b"ef"), Err(SinkFailed));
    assert_eq!(rt; sink.write(b"efgh"), Ok(4));
    assert_eq!(rt; sink.write(b"ijkl"), Err(SinkFailed));
    assert_eq!(rt; sink.write(b"ij"), Ok(2));
    assert_eq!(rt; sink.write(b""), Ok(0));
    assert_eq!(rt; sink.taken(), b"abcdefghij".as_slice());
    Ok(())
}

#[test]
fn a_sink_without_a_step_takes_no_byte(rt: HostRuntime) -> Result<(), Fail> {
    let alloc = rt.alloc();
    let mut sink = MemorySink::new(alloc, 10, 0, Vec::new(alloc))?;
    assert_eq!(rt; sink.write(b""), Ok(0));
    assert_eq!(rt; sink.write(b"a"), Err(SinkFailed));
    assert_eq!(rt; sink.taken(), b"".as_slice());
    Ok(())
}

#[test]
fn a_text_is_written_up_to_a_fault(rt: HostRuntime) -> Result<(), Fail> {
    let alloc = rt.alloc();
    let text = b"text 0\ndone\n";
    let mut sink = MemorySink::new(alloc, 1000, 8, Vec::new(alloc))?;
    assert_eq!(rt; write_all(&mut sink, text), Ok(()));
    assert_eq!(rt; sink.taken(), text.as_slice());
    let mut sink = MemorySink::new(alloc, 1000, 8, vec![in alloc; 2]?)?;
    assert_eq!(rt; write_all(&mut sink, text), Err(SinkFailed));
    assert_eq!(rt; sink.taken(), b"text 0\nd".as_slice());
    Ok(())
}

#[test]
fn files_of_the_present_folder_are_read(rt: HostRuntime) -> Result<(), Fail> {
    let alloc = rt.alloc();
    fs::write(&rt, "vera_io_a", "abcdef")?;
    fs::write(&rt, "vera_io_b", "ghijkl")?;
    let mut shelf = DirShelf::new(alloc, &rt)?;
    let bytes = read_all(alloc, &mut shelf, b"vera_io_a", 6)?;
    assert_eq!(rt; bytes.as_slice(), b"abcdef".as_slice());
    for (name, at, len, want) in [
        ("vera_io_a", 0, 2, "ab"),
        ("vera_io_a", 2, 1, "c"),
        ("vera_io_b", 3, 2, "jk"),
        ("vera_io_a", 5, 8, "f"),
        ("vera_io_a", 6, 8, ""),
        ("vera_io_a", 1, 8, "bcdef"),
    ] {
        let mut buf = vec![in alloc; 0; len]?;
        let count = shelf.read_at(name.as_bytes(), at, &mut buf);
        assert_eq!(rt; count, Ok(want.len()), "at {at} in {name}");
        buf.truncate(want.len());
        assert_eq!(rt; buf.as_slice(), want.as_bytes(), "at {at} in {name}");
    }
    fs::remove_file(&rt, "vera_io_a")?;
    fs::remove_file(&rt, "vera_io_b")?;
    Ok(())
}

#[test]
fn a_name_of_no_file_fails(rt: HostRuntime) -> Result<(), Fail> {
    let alloc = rt.alloc();
    let mut shelf = DirShelf::new(alloc, &rt)?;
    for name in [
        b"vera_io_none".as_slice(),
        b"".as_slice(),
        b"\xff".as_slice(),
    ] {
        let read = read_all(alloc, &mut shelf, name, 6);
        assert_eq!(rt; read.err(), Some(ReadAll::Failed));
    }
    Ok(())
}

#[test]
fn a_file_of_4_mib_is_read(rt: HostRuntime) -> Result<(), Fail> {
    let alloc = rt.alloc();
    let limit = 4_194_304;
    fs::write(
        &rt,
        "vera_io_large",
        vec![in alloc; 0; limit + 1]?.as_slice(),
    )?;
    let mut shelf = DirShelf::new(alloc, &rt)?;
    let read = read_all(alloc, &mut shelf, b"vera_io_large", limit as u64);
    assert_eq!(rt; read.err(), Some(ReadAll::TooLong));
    let bytes = read_all(alloc, &mut shelf, b"vera_io_large", limit as u64 + 1)?;
    assert_eq!(rt; bytes.len(), limit + 1);
    fs::remove_file(&rt, "vera_io_large")?;
    Ok(())
}

/// A file without an end, which remembers how far it was asked for.
#[derive(Drop)]
struct Endless {
    asked: u64,
}

impl Shelf for Endless {
    ghost use Rattle.std.specs.Prelude.{None};
    ghost use Rattle.vera_io.specs.Faults.{capped, capped-fits};

    ghost bytes_of = { λ shelf name. None };

    ghost faults_of = { λ shelf name. capped 0 };

    ghost counts_fit = { λ shelf name. capped-fits 0 };

    fn read_at(&mut self, _name: &[u8], at: u64, buf: &mut [u8]) -> Result<usize, ShelfFailed> {
        self.asked = self.asked.max(at.saturating_add(buf.len() as u64));
        Ok(buf.len())
    }
}

#[test]
fn no_byte_behind_the_first_past_the_limit_is_asked_for(rt: HostRuntime) -> Result<(), Fail> {
    let alloc = rt.alloc();
    for limit in [0, 7, 65_535, 65_536, 200_000] {
        let mut shelf = Endless { asked: 0 };
        let read = read_all(alloc, &mut shelf, b"a", limit);
        assert_eq!(rt; read.err(), Some(ReadAll::TooLong));
        assert_eq!(rt; shelf.asked, limit + 1);
    }
    Ok(())
}

/// A stream that takes each piece whole, or nothing, and remembers whether it was flushed last.
struct Flushed {
    takes: bool,
    flushed: bool,
}

impl Write for Flushed {
    fn write(&mut self, buf: &[u8]) -> io::Result<usize> {
        self.flushed = false;
        Ok(if self.takes { buf.len() } else { 0 })
    }

    fn flush(&mut self) -> io::Result<()> {
        self.flushed = true;
        Ok(())
    }
}

#[test]
fn a_text_is_written_to_a_stream(rt: HostRuntime) -> Result<(), Fail> {
    let alloc = rt.alloc();
    let mut sink = StreamSink::new(Vec::new(alloc));
    assert_eq!(rt; write_all(&mut sink, b"text 0\ndone\n"), Ok(()));
    assert_eq!(rt; sink.into_stream().as_slice(), b"text 0\ndone\n".as_slice());
    for takes in [true, false] {
        let mut sink = StreamSink::new(Flushed {
            takes,
            flushed: false,
        });
        assert_eq!(rt; sink.write(b""), Ok(0));
        assert_eq!(rt; write_all(&mut sink, b"a").is_ok(), takes);
        let Flushed { takes: _, flushed } = sink.into_stream();
        assert!(rt; flushed);
    }
    Ok(())
}
