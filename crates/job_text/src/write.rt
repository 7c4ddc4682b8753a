//! A job as its canonical text: numbers are decimal, and bytes are pairs of upper-case digits.
ghost use Rattle.std.specs.Prelude.{◌≡◌, ◌++◌, [], ◌∷◌, map, OnOk};
ghost use Rattle.std.specs.List.{flat_map, join_with_byte};
ghost use Rattle.channel_commands.specs.Views.{ccw_of};
ghost use Rattle.channel_program.specs.Script.{program as running};
ghost use Rattle.job_text.specs.Lines.{spelling, mss, volume, host, mount, ccw};
ghost use Rattle.job_text.specs.Views.{item_of};
ghost use Rattle.job_text.specs.Canonical.{line_text, word_line, serial_of, item_lines, script_lines, config_text, job_text};

use crate::job::{HostScript, Item, Job};
use crate::kind::Keyword;
use crate::numbered::volume_with;
use crate::pairs::push_hex;
use crate::reading::spelling;
use channel_commands::Ccw;
use channel_program::Program;
use mss_base::{Bytes, Config, HostNo, NoMemory, Serial, VolumeNo};

/// Puts a line: its keyword, and each word after one space.
fn push_line(out: &mut Bytes, keyword: Keyword, words: &[&[u8]]) -> Result<(), NoMemory>
    ensures { OnOk result
        (out.new.items
        ≡ out.old.items
        ++ (join_with_byte 32 (spelling keyword ∷ map (λ w. w.now) words.now) ++ 10 ∷ [])) }
{
    out.append(spelling(keyword).as_bytes())?;
    for word in words {
        out.append(b" ")?;
        out.append(word)?;
    }
    out.append(b"\n")
}

fn push_mss(out: &mut Bytes, frames: u16, recorders: u8) -> Result<(), NoMemory>
    ensures { OnOk result (out.new.items ≡ out.old.items ++ line_text (mss frames recorders)) }
{
    let mut frame_digits = itoa::Buffer::new();
    let mut recorder_digits = itoa::Buffer::new();
    let frames = frame_digits.format(frames).as_bytes();
    let recorders = recorder_digits.format(recorders).as_bytes();
    let words = [
        "1".as_bytes(),
        "frames".as_bytes(),
        frames,
        "recorders".as_bytes(),
        recorders,
    ];
    push_line(out, Keyword::Mss, &words)
}

fn push_volume(
    out: &mut Bytes,
    number: VolumeNo,
    serial: &Serial,
    read_only: bool,
) -> Result<(), NoMemory>
    ensures { OnOk result (out.new.items
        ≡ out.old.items ++ line_text (volume number serial.now read_only)) }
{
    let mut buffer = itoa::Buffer::new();
    let number = buffer.format(number.get()).as_bytes();
    let serial = serial.as_slice();
    if read_only {
        push_line(
            out,
            Keyword::Volume,
            &[number, serial, "readonly".as_bytes()],
        )
    } else {
        push_line(out, Keyword::Volume, &[number, serial])
    }
}

fn push_volumes(out: &mut Bytes, volumes: &[(VolumeNo, Serial, bool)]) -> Result<(), NoMemory>
    ensures { OnOk result (out.new.items
        ≡ out.old.items ++ flat_map line_text (map (λ v. volume v.0 v.1 v.2) volumes.now)) }
{
    for (number, serial, read_only) in volumes {
        push_volume(out, *number, serial, *read_only)?;
    }
    Ok(())
}

fn push_ccw(out: &mut Bytes, code: u8, argument: &[u8]) -> Result<(), NoMemory>
    ensures { OnOk result (out.new.items ≡ out.old.items ++ line_text (ccw code argument.now)) }
{
    out.append(b"ccw ")?;
    push_hex(out, &[code])?;
    if !argument.is_empty() {
        out.append(b" ")?;
        push_hex(out, argument)?;
    }
    out.append(b"\n")
}

fn push_word(out: &mut Bytes, word: &Ccw) -> Result<(), NoMemory>
    ensures { OnOk result
        (out.new.items ≡ out.old.items ++ line_text (word_line (ccw_of word.now))) }
{
    match word {
        Ccw::Device { code, argument } => push_ccw(out, *code, argument.as_slice()),
        Ccw::Transfer { to } => {
            let mut buffer = itoa::Buffer::new();
            push_line(out, Keyword::Tic, &[buffer.format(*to).as_bytes()])
        }
    }
}

fn push_words(out: &mut Bytes, words: &[Ccw]) -> Result<(), NoMemory>
    ensures { OnOk result
        (out.new.items
        ≡ out.old.items ++ flat_map line_text (map word_line (map ccw_of words.now))) }
{
    for word in words {
        push_word(out, word)?;
    }
    Ok(())
}

fn push_mount(out: &mut Bytes, serial: &[u8], bind: bool) -> Result<(), NoMemory>
    ensures { OnOk result (out.new.items ≡ out.old.items ++ line_text (mount serial.now bind)) }
{
    if bind {
        push_line(out, Keyword::Mount, &[serial, "bind".as_bytes()])
    } else {
        push_line(out, Keyword::Mount, &[serial])
    }
}

/// Puts the mount of a volume; a number that no volume has leaves the serial empty.
fn push_mounting(
    out: &mut Bytes,
    volumes: &[(VolumeNo, Serial, bool)],
    volume: VolumeNo,
    bind: bool,
) -> Result<(), NoMemory>
    ensures { OnOk result
        (out.new.items ≡ out.old.items ++ line_text (mount (serial_of volumes.now volume) bind)) }
{
    match volume_with(volumes, volume.get()) {
        Some((_, serial, _)) => push_mount(out, serial.as_slice(), bind),
        None => push_mount(out, &[], bind),
    }
}

fn push_program(out: &mut Bytes, program: &Program) -> Result<(), NoMemory>
    ensures { OnOk result
        (out.new.items
        ≡ out.old.items ++ flat_map line_text (item_lines [] (running program.now))) }
{
    push_line(out, Keyword::Program, &[])?;
    push_words(out, program.as_slice())?;
    push_line(out, Keyword::End, &[])
}

fn push_item(
    out: &mut Bytes,
    volumes: &[(VolumeNo, Serial, bool)],
    item: &Item,
) -> Result<(), NoMemory>
    ensures { OnOk result
        (out.new.items
        ≡ out.old.items ++ flat_map line_text (item_lines volumes.now (item_of item.now))) }
{
    match item {
        Item::Mount { volume, bind } => push_mounting(out, volumes, *volume, *bind),
        Item::Demount => push_line(out, Keyword::Demount, &[]),
        Item::Run(program) => push_program(out, program),
    }
}

fn push_items(
    out: &mut Bytes,
    volumes: &[(VolumeNo, Serial, bool)],
    items: &[Item],
) -> Result<(), NoMemory>
    ensures { OnOk result
        (out.new.items
        ≡ out.old.items
        ++ flat_map line_text (flat_map (item_lines volumes.now) (map item_of items.now))) }
{
    for item in items {
        push_item(out, volumes, item)?;
    }
    Ok(())
}

fn push_host(out: &mut Bytes, number: HostNo) -> Result<(), NoMemory>
    ensures { OnOk result (out.new.items ≡ out.old.items ++ line_text (host number)) }
{
    let mut buffer = itoa::Buffer::new();
    push_line(
        out,
        Keyword::Host,
        &[buffer.format(number.get()).as_bytes()],
    )
}

fn push_script(
    out: &mut Bytes,
    volumes: &[(VolumeNo, Serial, bool)],
    script: &HostScript,
) -> Result<(), NoMemory>
    ensures { OnOk result
        (out.new.items
        ≡ out.old.items ++ flat_map line_text (script_lines volumes.now script.now)) }
{
    push_host(out, script.host)?;
    push_items(out, volumes, script.items.as_slice())
}

fn push_scripts(out: &mut Bytes, config: &Config, scripts: &[HostScript]) -> Result<(), NoMemory>
    ensures { OnOk result
        (out.new.items
        ≡ out.old.items
        ++ flat_map line_text (flat_map (script_lines config.now.volumes) scripts.now)) }
{
    let volumes = config.volumes.as_slice();
    for script in scripts {
        push_script(out, volumes, script)?;
    }
    Ok(())
}

fn push_config(out: &mut Bytes, config: &Config) -> Result<(), NoMemory>
    ensures { OnOk result (out.new.items ≡ out.old.items ++ config_text config.now) }
{
    push_mss(out, config.frames, config.recorders)?;
    push_volumes(out, config.volumes.as_slice())
}

/// Puts a job's canonical text behind what is there.
///
/// After want of memory a front of the text may have been put.
pub fn push_job(out: &mut Bytes, job: &Job) -> Result<(), NoMemory>
    ensures { OnOk result (out.new.items ≡ out.old.items ++ job_text job.now) }
{
    push_config(out, &job.config)?;
    push_scripts(out, &job.config, job.hosts.as_slice())?;
    push_line(out, Keyword::Done, &[])
}
