// The text of a job, which several tests speak of.
use job_text::{Job, push_job};
use mss_base::{Bytes, NoMemory};
use std::alloc::Global;

pub fn written(alloc: Global, job: &Job) -> Result<Bytes, NoMemory> {
    let mut text = Bytes::new(alloc);
    push_job(&mut text, job)?;
    Ok(text)
}
