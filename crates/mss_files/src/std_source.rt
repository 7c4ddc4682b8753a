// Standard input as a source of bytes.
ghost use Rattle.std.specs.Prelude.{◌≡◌, ◌≢◌, ◌≤◌, ◌++◌, [], length, take};
ghost use Rattle.std.specs.Prelude.{is_err, IfOk, IfErr, OnErr};
ghost use Rattle.std.specs.IoError.{error_kind};
ghost use Rattle.std.specs.Io.KnownBytes.{Consumes, IsAtEnd, Keeps};
ghost use Rattle.mss_base.specs.Counts.{HasCause, count_after};
ghost use Rattle.mss_files.specs.Output.{AlwaysKnown, known_bytes};

use mss_base::{Failed, Source};
use std::io;
use std::io::{ErrorKind, Read};
use std::marker::Model;

/// A reader, as standard input. What a process is given no clause can say; but over readers that
/// tell what is left this is a source that tells.
#[derive(Drop)]
pub struct StdSource<R: Read> {
    input: R,
    faults: u64,
}

impl<R: Read> Model for StdSource<R> {
    ghost use Rattle.mss_files.specs.Output.{Input};

    ghost Value = { Input };

    ghost view = { λ s. record { left = R.remaining s.input; faults = s.faults } };
}

impl<R: Read> StdSource<R> {
    /// A source over this reader. It reads nothing yet.
    pub fn new(input: R) -> Self
        ensures { result ≡ record { left = R.remaining input; faults = 0 } }
    {
        StdSource { input, faults: 0 }
    }
}

impl<R: Read> Source for StdSource<R> {
    ghost tells = { AlwaysKnown R.remaining };

    ghost left = { λ input. known_bytes input.left };

    ghost faults = { λ input. input.faults };

    /// Reads once. A call that failed has taken nothing.
    fn take(&mut self, into: &mut [u8]) -> Result<usize, Failed>
        ensures within { IfOk result (λ n. n ≤ length into.old) }
        ensures moved { AlwaysKnown R.remaining → IfOk result
            (λ n. known_bytes self.old.left ≡ take n into.new ++ known_bytes self.new.left) }
        ensures ended { AlwaysKnown R.remaining → IfOk result
            (λ n. n ≡ 0 → 1 ≤ length into.old → known_bytes self.old.left ≡ []) }
        ensures stayed { AlwaysKnown R.remaining
            → OnErr result (known_bytes self.new.left ≡ known_bytes self.old.left) }
        ensures bytes { IfOk result (λ n. Consumes self.old.left self.new.left (take n into.new)) }
        ensures end { IfOk result (λ n. n ≡ 0 → 1 ≤ length into.old → IsAtEnd self.new.left) }
        ensures kept { OnErr result (Keeps self.old.left self.new.left) }
        ensures counted { self.new.faults ≡ count_after (is_err result) self.old.faults }
        ensures cause { HasCause self.old.faults self.new.faults result }
    {
        match read_once(&mut self.input, into) {
            Ok(count) => Ok(count),
            Err(_) => {
                self.faults = self.faults.saturating_add(1);
                Err(Failed)
            }
        }
    }

    fn faults(&self) -> u64 {
        self.faults
    }
}

/// Makes one read, and makes it again where a signal interrupts it, since that is no fault of the
/// input.
fn read_once<R: Read>(input: &mut R, into: &mut [u8]) -> io::Result<usize>
    ensures within { IfOk result (λ n. n ≤ length into.old) }
    ensures bytes { IfOk result
        (λ n. Consumes (R.remaining input.old) (R.remaining input.new) (take n into.new)) }
    ensures end { IfOk result
        (λ n. n ≡ 0 → 1 ≤ length into.old → IsAtEnd (R.remaining input.new)) }
    ensures kept { OnErr result (Keeps (R.remaining input.old) (R.remaining input.new)) }
    ensures repeated { IfErr result (λ error. error_kind error ≢ ErrorKind.Interrupted) }
{
    for _ in 0..u64::MAX {
        match input.read(into) {
            Err(error) if error.kind() == ErrorKind::Interrupted => {}
            outcome => return outcome,
        }
    }
    Err(io::Error::from(ErrorKind::TimedOut))
}
