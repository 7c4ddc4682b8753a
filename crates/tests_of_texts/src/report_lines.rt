// Lines that a failed put ends, and the one line that no run puts. The others, `checks` and the examples show.
use channel_commands::{Call, Reply};
use ckd_plain::Entry;
use memory_devices::MemorySink;
use mss_base::{Bytes, Failed, HostNo, Page, Sink, VolumeNo};
use report_text::{OneLine, ReportFault, put_change, put_history, put_line};
use shown_volumes::Refused;
use std::alloc::Global;
use std::test::Fail;
use volume_table::Change;

/// Puts the history of one mount.
fn put_mount<O: Sink>(output: &mut O, alloc: Global) -> Option<Result<(), ReportFault>> {
    let host = HostNo::of(1)?;
    let volume = VolumeNo::of(0)?;
    let bind = false;
    let entry = Entry {
        host,
        number: 1,
        call: Call::Mount { volume, bind },
        reply: Reply::Mounted,
        fault: None,
    };
    Some(put_history(output, &mut Bytes::new(alloc), &[entry]))
}

#[test]
fn a_failed_put_ends_a_history(rt: HostRuntime) -> Result<(), Fail> {
    let mut output = MemorySink::new(rt.alloc(), &[2])?;
    let put = put_mount(&mut output, rt.alloc());
    assert!(rt; put == Some(Err(ReportFault::Output)));
    assert_eq!(rt; output.bytes(), b"MSS REPORT 1\n".as_slice());
    assert_eq!(rt; output.faults(), 1);
    Ok(())
}

/// Puts the line of a stop before the session.
fn put_stop<O: Sink>(output: &mut O) -> Result<(), Failed> {
    let refused = Refused::Stopped { fault: 1 };
    put_line(output, &OneLine::RestartRefused(refused))
}

#[test]
fn a_failed_put_ends_a_line(rt: HostRuntime) -> Result<(), Fail> {
    let mut output = MemorySink::new(rt.alloc(), &[2])?;
    assert!(rt; put_stop(&mut output).is_err());
    assert_eq!(rt;
        output.bytes(),
        b"restart refused stopped fault ".as_slice()
    );
    assert_eq!(rt; output.faults(), 1);
    Ok(())
}

/// Puts the change of a page that had no frame.
fn put_free<O: Sink>(output: &mut O, alloc: Global) -> Option<Result<(), ReportFault>> {
    let volume = VolumeNo::of(0)?;
    let free = Change::Free {
        page: Page::of(50)?,
    };
    Some(put_change(output, &mut Bytes::new(alloc), 11, volume, &free, None))
}

#[test]
fn a_page_without_a_frame_is_freed(rt: HostRuntime) -> Result<(), Fail> {
    let mut output = MemorySink::new(rt.alloc(), &[])?;
    assert!(rt; put_free(&mut output, rt.alloc()) == Some(Ok(())));
    let line = b"change 11 volume 0 free page 50 frame -\n".as_slice();
    assert_eq!(rt; output.bytes(), line);
    Ok(())
}
