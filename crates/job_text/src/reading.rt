//! What the lines so far said, and the next line.
ghost use Rattle.std.specs.Prelude.{◌≡◌, ◌==◌, ◌||◌, ℕ, List, [], ◌∷◌, ◌++◌, map, length, false, Some, None, Ok, OnOk, OnErr};
ghost use Rattle.std.specs.Option.{option_map, option_map_or};
ghost use Rattle.std.specs.List.{list_all, list_any, find};
ghost use Rattle.job_text.specs.Words.{is_printable};
ghost use Rattle.std.specs.Str.{bytes_eq};
ghost use Rattle.channel_commands.specs.Views.{argument_bytes};
ghost use Rattle.job_text.specs.Lines.{spelling, keywords_at, keyword_at, mss, volume, host, done, mount, demount, program, ccw, tic, end};
ghost use Rattle.job_text.specs.Grammar.{nothing, after_line, line_of_words, line_after, scripts, is_twice, number_of_serial};
ghost use Rattle.job_text.specs.Outcomes.{Steps};
ghost use Rattle.job_text.specs.Views.{line_data};
ghost use Rattle.job_text.specs.SoFar.{so_far};

use crate::job::{HostScript, HostScripts, Item, ItemList};
use crate::kind::{JobKind, Keyword, Place};
use crate::line::{Line, LineFault, line_of};
use crate::words::{cut_words, is_skipped, is_word};
use channel_commands::{Argument, Ccw};
use channel_program::{Program, WORD_LIMIT, Words};
use mss_base::{HostNo, Listed, NoMemory, Serial, VolumeList, VolumeNo};
use std::alloc::Global;
use std::mem;

/// The most items of a host.
const ITEM_LIMIT: usize = 1024;

/// The most bytes of an argument.
const ARGUMENT_LIMIT: usize = 65_798;

/// The most bytes of all arguments.
const TOTAL_LIMIT: usize = 268_435_456;

pub fn spelling(keyword: Keyword) -> &'static str
    ensures { result.now ≡ spelling keyword }
{
    match keyword {
        Keyword::Mss => "mss",
        Keyword::Volume => "volume",
        Keyword::Host => "host",
        Keyword::Done => "done",
        Keyword::Mount => "mount",
        Keyword::Demount => "demount",
        Keyword::Program => "program",
        Keyword::Ccw => "ccw",
        Keyword::Tic => "tic",
        Keyword::End => "end",
    }
}

/// The keywords that are allowed at a place.
fn allowed(place: Place) -> &'static [Keyword]
    ensures { result.now ≡ keywords_at place }
{
    match place {
        Place::Head => &[Keyword::Mss],
        Place::Volumes => &[Keyword::Volume, Keyword::Host, Keyword::Done],
        Place::Host => &[
            Keyword::Host,
            Keyword::Done,
            Keyword::Mount,
            Keyword::Demount,
            Keyword::Program,
        ],
        Place::Program => &[Keyword::Ccw, Keyword::Tic, Keyword::End],
        Place::After => &[],
    }
}

/// The keyword that the word is, of those that are allowed at the place.
fn keyword_at(place: Place, word: &[u8]) -> Option<Keyword>
    ensures { result ≡ keyword_at place word.now }
{
    allowed(place)
        .iter()
        .copied()
        .find(|keyword| is_word(word, spelling(*keyword)))
}

/// What the lines so far said.
#[derive(Drop)]
pub struct Reading {
    pub place: Place,
    pub frames: u16,
    pub recorders: u8,
    pub volumes: VolumeList,
    pub closed: HostScripts,
    pub present: Option<HostNo>,
    pub items: ItemList,
    /// The words of the open program.
    pub words: Words,
    pub total: usize,
}

fn clashes(known: &(VolumeNo, Serial, bool), number: VolumeNo, serial: &Serial) -> bool
    ensures { result ≡ (known.now.0 == number || bytes_eq known.now.1 serial.now) }
{
    known.0.get() == number.get() || known.1.as_slice() == serial.as_slice()
}

fn is_volume_among(volumes: &[(VolumeNo, Serial, bool)], number: VolumeNo, serial: &Serial) -> bool
    ensures { result ≡ list_any (λ v. v.0 == number || bytes_eq v.1 serial.now) volumes.now }
{
    volumes.iter().any(|v| clashes(v, number, serial))
}

fn volume_among(volumes: &[(VolumeNo, Serial, bool)], serial: &Serial) -> Option<VolumeNo>
    ensures { result ≡ option_map (λ v. v.0) (find (λ v. bytes_eq v.1 serial.now) volumes.now) }
{
    volumes
        .iter()
        .find(|v| v.1.as_slice() == serial.as_slice())
        .map(|v| v.0)
}

/// Puts a value last.
fn push<T: Drop>(list: &mut Listed<T>, value: T) -> Result<(), NoMemory>
    ensures ok { OnOk result (list.new.items ≡ list.old.items ++ value ∷ []) }
    ensures err { OnErr result (list.new.items ≡ list.old.items) }
{
    list.reserve(1)?;
    list.push(value);
    Ok(())
}

fn is_host_among(scripts: &[HostScript], number: HostNo) -> bool
    ensures { result ≡ list_any (λ script. script.host == number) scripts.now }
{
    scripts.iter().any(|s| s.host.get() == number.get())
}

impl Reading {
    /// Before the first line.
    pub fn new(alloc: Global) -> Reading
        ensures { so_far result ≡ nothing }
    {
        Reading {
            place: Place::Head,
            frames: 0,
            recorders: 0,
            volumes: VolumeList::new(alloc),
            closed: HostScripts::new(alloc),
            present: None,
            items: ItemList::new(alloc),
            words: Words::new(alloc),
            total: 0,
        }
    }

    fn is_volume_twice(&self, number: VolumeNo, serial: &Serial) -> bool
        ensures { result ≡ is_twice (so_far self.now) (volume number serial.now false) }
    {
        is_volume_among(self.volumes.as_slice(), number, serial)
    }

    fn is_host_twice(&self, number: HostNo) -> bool
        ensures { result ≡ is_twice (so_far self.now) (host number) }
    {
        is_host_among(self.closed.as_slice(), number) || self.is_present(number)
    }

    fn volume_of(&self, serial: &Serial) -> Option<VolumeNo>
        ensures { result ≡ number_of_serial (so_far self.now) serial.now }
    {
        volume_among(self.volumes.as_slice(), serial)
    }

    fn put_mss(&mut self, frames: u16, recorders: u8) -> Result<(), LineFault>
        ensures { Steps result (so_far self.new)
            (after_line (so_far self.old) (mss frames recorders)) }
    {
        self.place = Place::Volumes;
        self.frames = frames;
        self.recorders = recorders;
        Ok(())
    }

    fn put_volume(
        &mut self,
        number: VolumeNo,
        serial: Serial,
        read_only: bool,
    ) -> Result<(), LineFault>
        ensures { Steps result (so_far self.new)
            (after_line (so_far self.old) (volume number serial read_only)) }
    {
        if self.is_volume_twice(number, &serial) {
            return Err(LineFault::Bad(JobKind::Twice));
        }
        push(&mut self.volumes, (number, serial, read_only))?;
        Ok(())
    }

    fn is_present(&self, number: HostNo) -> bool
        ensures { result ≡ option_map_or (λ n. n == number) self.now.present false }
    {
        match self.present {
            Some(host) => host.get() == number.get(),
            None => false,
        }
    }

    /// Puts the present host behind the closed ones.
    fn close(&mut self, alloc: Global) -> Result<(), LineFault>
        ensures { Steps result (so_far self.new)
            (Ok (record
            (so_far self.old) { closed = scripts (so_far self.old); present = None; items = [] })) }
    {
        let items = mem::replace(&mut self.items, ItemList::new(alloc));
        if let Some(host) = self.present {
            push(&mut self.closed, HostScript { host, items })?;
        }
        self.present = None;
        Ok(())
    }

    fn put_host(&mut self, alloc: Global, number: HostNo) -> Result<(), LineFault>
        ensures { Steps result (so_far self.new) (after_line (so_far self.old) (host number)) }
    {
        if self.is_host_twice(number) {
            return Err(LineFault::Bad(JobKind::Twice));
        }
        self.close(alloc)?;
        self.place = Place::Host;
        self.present = Some(number);
        Ok(())
    }

    fn put_done(&mut self, alloc: Global) -> Result<(), LineFault>
        ensures { Steps result (so_far self.new) (after_line (so_far self.old) done) }
    {
        self.close(alloc)?;
        self.place = Place::After;
        Ok(())
    }

    fn put_mount(&mut self, serial: Serial, bind: bool) -> Result<(), LineFault>
        ensures { Steps result (so_far self.new)
            (after_line (so_far self.old) (mount serial bind)) }
    {
        let Some(volume) = self.volume_of(&serial) else {
            return Err(LineFault::Bad(JobKind::Absent));
        };
        if self.items.as_slice().len() >= ITEM_LIMIT {
            return Err(LineFault::Bad(JobKind::Count));
        }
        push(&mut self.items, Item::Mount { volume, bind })?;
        Ok(())
    }

    fn put_demount(&mut self) -> Result<(), LineFault>
        ensures { Steps result (so_far self.new) (after_line (so_far self.old) demount) }
    {
        if self.items.as_slice().len() >= ITEM_LIMIT {
            return Err(LineFault::Bad(JobKind::Count));
        }
        push(&mut self.items, Item::Demount)?;
        Ok(())
    }

    fn put_program(&mut self, alloc: Global) -> Result<(), LineFault>
        ensures { Steps result (so_far self.new) (after_line (so_far self.old) program) }
    {
        if self.items.as_slice().len() >= ITEM_LIMIT {
            return Err(LineFault::Bad(JobKind::Count));
        }
        self.words = Words::new(alloc);
        self.place = Place::Program;
        Ok(())
    }

    /// Puts a command into the open program.
    pub fn put_ccw(&mut self, code: u8, argument: Argument) -> Result<(), LineFault>
        ensures { Steps result (so_far self.new)
            (after_line (so_far self.old) (ccw code (argument_bytes argument))) }
    {
        let length = argument.as_slice().len();
        if self.words.len() >= WORD_LIMIT {
            return Err(LineFault::Bad(JobKind::Count));
        }
        if length > ARGUMENT_LIMIT {
            return Err(LineFault::Bad(JobKind::Count));
        }
        if self.total > TOTAL_LIMIT - length {
            return Err(LineFault::Bad(JobKind::Count));
        }
        self.words.push(Ccw::Device { code, argument })?;
        self.total += length;
        Ok(())
    }

    fn put_tic(&mut self, to: u8) -> Result<(), LineFault>
        ensures { Steps result (so_far self.new) (after_line (so_far self.old) (tic to)) }
    {
        if self.words.len() >= WORD_LIMIT {
            return Err(LineFault::Bad(JobKind::Count));
        }
        self.words.push(Ccw::Transfer { to })?;
        Ok(())
    }

    fn put_end(&mut self, alloc: Global) -> Result<(), LineFault>
        ensures { Steps result (so_far self.new) (after_line (so_far self.old) end) }
    {
        if self.words.is_empty() {
            return Err(LineFault::Bad(JobKind::Count));
        }
        let words = mem::replace(&mut self.words, Words::new(alloc));
        push(&mut self.items, Item::Run(Program::of(words)))?;
        self.place = Place::Host;
        Ok(())
    }

    fn put(&mut self, alloc: Global, line: Line) -> Result<(), LineFault>
        ensures { Steps result (so_far self.new) (after_line (so_far self.old) (line_data line)) }
    {
        match line {
            Line::Mss { frames, recorders } => self.put_mss(frames, recorders),
            Line::Volume {
                number,
                serial,
                read_only,
            } => self.put_volume(number, serial, read_only),
            Line::Host { number } => self.put_host(alloc, number),
            Line::Done => self.put_done(alloc),
            Line::Mount { serial, bind } => self.put_mount(serial, bind),
            Line::Demount => self.put_demount(),
            Line::Program => self.put_program(alloc),
            Line::Ccw { code, argument } => self.put_ccw(code, argument),
            Line::Tic { to } => self.put_tic(to),
            Line::End => self.put_end(alloc),
        }
    }

    fn put_words(&mut self, alloc: Global, words: &[&[u8]]) -> Result<(), LineFault>
        ensures { Steps result (so_far self.new)
            (line_of_words (so_far self.old) (map (λ w. w.now) words.now)) }
    {
        let [first, rest @ ..] = words else {
            return Err(LineFault::Bad(JobKind::Unknown));
        };
        let Some(keyword) = keyword_at(self.place, first) else {
            return Err(LineFault::Bad(JobKind::Unknown));
        };
        let line = line_of(alloc, keyword, rest)?;
        self.put(alloc, line)
    }

    /// Takes the next line, of which is told whether its bytes are all printable. Its words are put into the list that
    /// is lent.
    pub fn take_line<'t>(
        &mut self,
        alloc: Global,
        words: &mut Vec<&'t [u8]>,
        line: &'t [u8],
        printable: bool,
    ) -> Result<(), LineFault>
        requires { printable ≡ list_all is_printable line.now }
        ensures { Steps result (so_far self.new) (line_after (so_far self.old) line.now) }
    {
        if is_skipped(line) {
            return Ok(());
        }
        if !printable {
            return Err(LineFault::Bad(JobKind::BadByte));
        }
        if self.place == Place::After {
            return Err(LineFault::Bad(JobKind::After));
        }
        cut_words(words, line)?;
        self.put_words(alloc, words)
    }
}
