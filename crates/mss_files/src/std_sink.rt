// Standard output as a sink of bytes.
ghost use Rattle.std.specs.Prelude.{◌≡◌, ◌≢◌, ◌≤◌, [], length, is_err, IfOk, IfErr, OnOk, OnErr};
ghost use Rattle.std.specs.IoError.{error_kind};
ghost use Rattle.std.specs.Io.KnownBytes.{Appends, Keeps, WriteAppends, append_known};
ghost use Rattle.mss_base.specs.Puts.{Puts};
ghost use Rattle.mss_base.specs.Counts.{HasCause, count_after};
ghost use Rattle.mss_files.specs.Output.{AppendsFront, AlwaysKnown, known_bytes};

use mss_base::{Failed, NoMemory, Sink};
use std::alloc::Global;
use std::io;
use std::io::{BufWriter, ErrorKind, Write};
use std::marker::Model;

/// A writer behind a buffer, as standard output. What reaches the system no clause can say; but
/// over writers that hold their bytes this is a sink that tells.
///
/// What was put may wait in the buffer until `flush`, whose failure is a failure of the output as
/// well. A drop writes nothing, since it couldn't tell that it failed.
pub struct StdSink<W: Write + Drop> {
    output: BufWriter<W>,
    faults: u64,
}

impl<W: Write + Drop> Model for StdSink<W> {
    ghost use Rattle.std.specs.Io.Buffered.{writer_buffer, writer_contents};
    ghost use Rattle.mss_files.specs.Output.{Output};

    ghost Value = { Output };

    ghost view = { λ s. record {
      contents = writer_contents W.contents s.output;
      waiting = writer_buffer s.output;
      faults = s.faults;
    } };
}

impl<W: Write + Drop> StdSink<W> {
    /// Nothing waits yet. After want of memory the writer is let go of.
    pub fn new(alloc: Global, output: W) -> Result<Self, NoMemory>
        ensures contents { IfOk result
            (λ sink. sink.contents ≡ append_known (W.contents output) []) }
        ensures empty { IfOk result (λ sink. sink.waiting ≡ []) }
        ensures faults { IfOk result (λ sink. sink.faults ≡ 0) }
    {
        let Ok(output) = BufWriter::new(alloc, output) else {
            return Err(NoMemory);
        };
        Ok(StdSink { output, faults: 0 })
    }

    /// Writes what waits in the buffer. After a failure some of it may still wait.
    pub fn flush(&mut self) -> Result<(), Failed>
        ensures written { OnOk result (self.new.waiting ≡ []) }
        ensures kept { Keeps self.old.contents self.new.contents }
        ensures told { AlwaysKnown W.contents
            → known_bytes self.new.contents ≡ known_bytes self.old.contents }
        ensures counted { self.new.faults ≡ count_after (is_err result) self.old.faults }
        ensures cause { HasCause self.old.faults self.new.faults result }
    {
        if self.output.flush().is_err() {
            self.faults = self.faults.saturating_add(1);
            return Err(Failed);
        }
        Ok(())
    }
}

impl<W: Write + Drop> Drop for StdSink<W> {
    fn drop(self) {
        let StdSink { output, faults: _ } = self;
        let _unwritten = output.into_parts();
    }
}

impl<W: Write + Drop> Sink for StdSink<W> {
    ghost tells = { AlwaysKnown W.contents };

    ghost told = { λ output. known_bytes output.contents };

    ghost faults = { λ output. output.faults };

    /// Puts the bytes behind those before them. A call that failed has put a front of them.
    fn put(&mut self, bytes: &[u8]) -> Result<(), Failed>
        ensures bytes { AlwaysKnown W.contents
            → Puts result (known_bytes self.old.contents)
            (known_bytes self.new.contents) bytes.now }
        ensures appended { OnOk result (Appends self.old.contents self.new.contents bytes.now) }
        ensures front { OnErr result (AppendsFront self.old.contents self.new.contents bytes.now) }
        ensures counted { self.new.faults ≡ count_after (is_err result) self.old.faults }
        ensures cause { HasCause self.old.faults self.new.faults result }
    {
        match write_all(&mut self.output, bytes) {
            Ok(()) => Ok(()),
            Err(_) => {
                self.faults = self.faults.saturating_add(1);
                Err(Failed)
            }
        }
    }

    fn faults(&self) -> u64 {
        self.faults
    }
}

/// Writes once, and again where a signal interrupts it.
fn write_once<W: Write>(output: &mut W, bytes: &[u8]) -> io::Result<usize>
    ensures within { IfOk result (λ n. n ≤ length bytes.now) }
    ensures bytes { WriteAppends (W.contents output.old) (W.contents output.new) result bytes.now }
    ensures repeated { IfErr result (λ error. error_kind error ≢ ErrorKind.Interrupted) }
{
    for _ in 0..u64::MAX {
        match output.write(bytes) {
            Err(error) if error.kind() == ErrorKind::Interrupted => {}
            outcome => return outcome,
        }
    }
    Err(io::Error::from(ErrorKind::TimedOut))
}

/// Writes all the bytes. After a failure a front of them is written, which std's call of this name
/// doesn't say.
fn write_all<W: Write>(output: &mut W, bytes: &[u8]) -> io::Result<()>
    ensures appended { OnOk result
        (Appends (W.contents output.old) (W.contents output.new) bytes.now) }
    ensures front { OnErr result
        (AppendsFront (W.contents output.old) (W.contents output.new) bytes.now) }
{
    let mut done = 0usize;
    while done < bytes.len() {
        let (_, rest) = bytes.split_at(done);
        let count = match write_once(output, rest) {
            Ok(count) => count,
            Err(error) => return Err(error),
        };
        if count == 0 {
            return Err(io::Error::from(ErrorKind::WriteZero));
        }
        done += count;
    }
    Ok(())
}
