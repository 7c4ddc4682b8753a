// The first worked job, read and written. Which lines are refused, `tests/test_refused_jobs.py` shows.
use crate::written::written;
use job_text::read_job;
use mss_base::Bytes;
use std::alloc::Global;
use std::test::Fail;

/// A host writes a record on cylinder 5, head 3, and reads it back.
const FIRST_JOB: &str = "mss 1 frames 1 recorders 1\n\
    volume 0 VOL001\n\
    host 1\n\
    mount VOL001\n\
    program\n\
    ccw 07 000000050003\n\
    ccw 31 0005000300\n\
    tic 1\n\
    ccw 1D 0005000301000003414243\n\
    end\n\
    program\n\
    ccw 07 000000050003\n\
    ccw 31 0005000301\n\
    tic 1\n\
    ccw 06\n\
    end\n\
    done\n";

/// The text that a job is written as which is read from a text.
fn written_again(alloc: Global, text: &[u8]) -> Option<Bytes> {
    let job = read_job(alloc, text).ok()?;
    written(alloc, &job).ok()
}

#[test]
fn the_first_job_is_read_and_written(rt: HostRuntime) -> Result<(), Fail> {
    let text = written_again(rt.alloc(), FIRST_JOB.as_bytes()).ok_or("job")?;
    assert_eq!(rt; text.as_slice(), FIRST_JOB.as_bytes());
    Ok(())
}
