//! The program over readers and writers of std.
use crate::tests::SELECT_ONE;
use crate::tests::runs::command_line;
use crate::{Failed, ReadSource, RunError, Sink, Source, WriteSink, read_all, run, run_streams};
use std::io;
use std::io::BufWriter;
use std::test::Fail;

#[test]
fn writes_the_report_to_a_writer(rt: HostRuntime) -> Result<(), Fail> {
    let mut written = Vec::<u8>::new(rt.alloc());
    let mut source = ReadSource::new(b"select 1;".as_slice());
    let mut out = WriteSink::new(&mut written);
    let mut err = WriteSink::new(Vec::<u8>::new(rt.alloc()));
    let result = run(rt.alloc(), &[], &mut source, &mut out, &mut err);
    assert_eq!(rt; result.status, 0);
    assert_eq!(rt; written.as_slice(), SELECT_ONE.as_bytes());
    Ok(())
}

// A reader whose second read fails, and whose third would be the end.
#[derive(Drop)]
struct FailsOnce(usize);

impl io::Read for FailsOnce {
    fn read(&mut self, buf: &mut [u8]) -> io::Result<usize> {
        self.0 = self.0.saturating_add(1);
        match self.0 {
            1 => {
                let count = buf.len().min(1);
                buf[..count].copy_from_slice(&b";"[..count]);
                Ok(count)
            }
            2 => Err(io::Error::from(io::ErrorKind::Interrupted)),
            _ => Ok(0),
        }
    }
}

#[test]
fn a_failed_read_is_not_tried_again(rt: HostRuntime) {
    let mut source = ReadSource::new(FailsOnce(0));
    let mut buffer = [0u8; 8];
    assert_eq!(rt; source.read(&mut buffer), Ok(1));
    assert_eq!(rt; source.read(&mut buffer), Err(Failed));
    assert_eq!(rt; source.read(&mut buffer), Ok(0));
    let mut source = ReadSource::new(FailsOnce(0));
    let refused = read_all(rt.alloc(), &mut source, 10).err();
    assert_eq!(rt; refused, Some(RunError::ReadFault));
}

// A writer that takes nothing, and one that cannot be flushed.
#[derive(Drop)]
struct TakesNothing;

impl io::Write for TakesNothing {
    fn write(&mut self, _: &[u8]) -> io::Result<usize> {
        Ok(0)
    }

    fn flush(&mut self) -> io::Result<()> {
        Ok(())
    }
}

#[derive(Drop)]
struct NeverFlushes;

impl io::Write for NeverFlushes {
    fn write(&mut self, piece: &[u8]) -> io::Result<usize> {
        Ok(piece.len())
    }

    fn flush(&mut self) -> io::Result<()> {
        Err(io::Error::from(io::ErrorKind::BrokenPipe))
    }
}

#[test]
fn each_write_is_flushed(rt: HostRuntime) -> Result<(), Fail> {
    let mut writer = BufWriter::new(rt.alloc(), Vec::new(rt.alloc()))?;
    let mut sink = WriteSink::new(&mut writer);
    assert_eq!(rt; sink.write(b"ab"), Ok(2));
    assert_eq!(rt; writer.get_ref().as_slice(), b"ab".as_slice());
    assert_eq!(rt; WriteSink::new(NeverFlushes).write(b"ab"), Err(Failed));
    Ok(())
}

#[test]
fn a_write_that_takes_nothing_fails(rt: HostRuntime) {
    assert_eq!(rt; WriteSink::new(TakesNothing).write(b"ab"), Err(Failed));
    assert_eq!(rt; WriteSink::new(TakesNothing).write(b""), Ok(0));
}

#[test]
fn status_over_streams(rt: HostRuntime) -> Result<(), Fail> {
    let words = command_line(rt.alloc(), &["select"])?;
    for (name, input, status) in [("text", b";", 0), ("not_utf8", b"\xff", 4)] {
        let (out, err) = (Vec::<u8>::new(rt.alloc()), Vec::<u8>::new(rt.alloc()));
        let ended = run_streams(rt.alloc(), &[], input.as_slice(), out, err);
        assert_eq!(rt; ended, status, "{name}");
    }
    let (out, err) = (Vec::<u8>::new(rt.alloc()), Vec::<u8>::new(rt.alloc()));
    let ended = run_streams(rt.alloc(), &words, b";".as_slice(), out, err);
    assert_eq!(rt; ended, 2, "a_word");
    let err = Vec::<u8>::new(rt.alloc());
    let ended = run_streams(rt.alloc(), &[], b";".as_slice(), NeverFlushes, err);
    assert_eq!(rt; ended, 7, "output_fails");
    let (out, err) = (Vec::<u8>::new(rt.alloc()), Vec::<u8>::new(rt.alloc()));
    let ended = run_streams(rt.alloc(), &[], FailsOnce(0), out, err);
    assert_eq!(rt; ended, 3, "input_fails");
    Ok(())
}
