//! A drawing from its first line to its last.

use crate::fault::DrawFault;
use crate::lines::Lines;
use client_commands::{ClientCommand, Dictation, FileName, FileTarget, Film, Heard};
use devices::{Sink, Source};
use document_pen::{Done, Pen, carry_out};
use genedit_io::{RunFault, push_output};
use genedit_script::{says_something, without_return};
use kept_devices::Keep;
use std::rt::Files;
use std::sync::Wait;
use std::time::{Clock, Duration};
use std::{mem, thread};
use typed_commands::{
    About, FilmFiles, OpenedFile, OwnFiles, Progress, Tally, cure, is_script, plan_of, read_opened,
    refusal_in, tell_cure, tell_fault, tell_open_block, warn_of_rule,
};

/// A drawing that has ended: the pen, and what came of the lines, or why it ended before them.
#[derive(Drop)]
pub struct Drawn<K: Keep> {
    pub pen: Pen<K>,
    pub ended: Result<Tally, DrawFault>,
}

/// How a drawing goes on behind a line.
#[derive(Clone, Copy, Debug, PartialEq, Eq)]
enum Going {
    On,
    /// The pen is laid down.
    Leaving,
}

/// What draws, what it asks the system by, and what came of its lines.
#[derive(Drop)]
struct Drawing<'a, R: Eprint, K: Keep> {
    rt: &'a R,
    pen: Pen<K>,
    /// The files that it wrote, which it may write again.
    files: OwnFiles,
    /// Whether it is said on standard error how far a film is.
    tells_progress: bool,
    tally: Tally,
    /// Whether a line said something.
    has_heard: bool,
}

/// Carries out the commands of a source in the document of a pen, to `bye` or the end of the source. What each prints is
/// pushed before the next line is awaited. Lines at fault are told on standard error, and passed over; so is what would
/// be right in the place of a command that was refused, and, where it is asked for, how far a film is.
pub fn draw<R: Files + Clock + Wait + Eprint, K: Keep, S: Source, O: Sink>(
    rt: &R,
    pen: Pen<K>,
    source: &mut S,
    sink: &mut O,
    tells_progress: bool,
) -> Drawn<K> {
    let files = OwnFiles::none(pen.alloc());
    let mut drawing = Drawing {
        rt,
        pen,
        files,
        tells_progress,
        tally: Tally::none(),
        has_heard: false,
    };
    let obeyed = drawing.obey_all(source, sink);
    let pushed = drawing.push_printed(sink);
    let tally = drawing.tally;
    let ended = match obeyed {
        Ok(()) => pushed.map(|()| tally),
        Err(fault) => Err(fault),
    };
    let Drawing { pen, .. } = drawing;
    Drawn { pen, ended }
}

impl<'a, R: Files + Clock + Wait + Eprint, K: Keep> Drawing<'a, R, K> {
    /// Carries out commands to the one that ends, or to the end of the lines.
    fn obey_all<S: Source, O: Sink>(
        &mut self,
        source: &mut S,
        sink: &mut O,
    ) -> Result<(), DrawFault> {
        let rt = self.rt;
        let mut dictation = Dictation::new(self.pen.alloc());
        let mut lines = Lines::new(self.pen.alloc());
        for _ in rt.forever() {
            self.push_printed(sink)?;
            let Some(line) = lines.next(source)? else {
                return self.end(&dictation);
            };
            if self.hear(&mut dictation, &line, sink)? == Going::Leaving {
                return Ok(());
            }
        }
        unreachable!()
    }

    /// Pushes what was printed, and keeps in mind whether that tells a refusal.
    fn push_printed<O: Sink>(&mut self, sink: &mut O) -> Result<(), DrawFault> {
        if self.pen.printed().is_empty() {
            return Ok(());
        }
        push_output(sink, self.pen.printed())?;
        if refusal_in(self.pen.printed()).is_some() {
            self.tally.refused = true;
        }
        self.pen.clear_printed();
        Ok(())
    }

    /// Says where the lines end in a block that is open.
    fn end(&mut self, dictation: &Dictation) -> Result<(), DrawFault> {
        if let Some(number) = dictation.ended() {
            self.tally.faulty = true;
            tell_open_block(self.rt, self.pen.alloc(), number)?;
        }
        Ok(())
    }

    /// Hears a line, and does what it asks for.
    fn hear<O: Sink>(
        &mut self,
        dictation: &mut Dictation,
        line: &[u8],
        sink: &mut O,
    ) -> Result<Going, DrawFault> {
        let text = without_return(line);
        if is_script(self.has_heard, text) {
            return Err(DrawFault::Script);
        }
        self.has_heard = self.has_heard || says_something(text);
        match dictation.hear(line)? {
            Heard::Nothing => Ok(Going::On),
            Heard::Faulty(number) => {
                self.tally.faulty = true;
                tell_fault(self.rt, self.pen.alloc(), number, line)?;
                Ok(Going::On)
            }
            Heard::Command(command) => self.obey(command, dictation.lines(), sink),
        }
    }

    /// Does what a command asks for, whose line ends at this number, and says what would be right where it is refused.
    fn obey<O: Sink>(
        &mut self,
        command: ClientCommand,
        number: u64,
        sink: &mut O,
    ) -> Result<Going, DrawFault> {
        let about = About::of(self.pen.alloc(), &command);
        if let ClientCommand::Pattern(name, text) = &command {
            self.warn(name.as_bytes(), text.as_slice())?;
        }
        match carry_out(&mut self.pen, command)? {
            Done::Told => {}
            Done::Write(target, text) => self.write(target, &text)?,
            Done::Film(film) => self.film(&film)?,
            Done::Open(file) => self.open(&file)?,
            Done::Sleep(milliseconds) => self.sleep(milliseconds, sink)?,
            Done::Leave => return Ok(Going::Leaving),
            Done::OfBoards => {
                self.tally.faulty = true;
                tell_of_boards(self.rt, number);
            }
        }
        self.tell_cure(number, &about);
        Ok(Going::On)
    }

    /// Warns where a pattern's text, which is told by this name, has another rule than the document.
    fn warn(&self, name: &[u8], text: &[u8]) -> Result<(), DrawFault> {
        let rule = self.pen.replica().rule();
        warn_of_rule(self.rt, self.pen.alloc(), &rule, name, text)?;
        Ok(())
    }

    /// Says what would be right, where the command of a line that ends at this one was refused for what it says. Where
    /// memory is wanting for that, nothing is said: the refusal stands, and the drawing goes on.
    fn tell_cure(&self, number: u64, about: &About) {
        let (alloc, rule) = (self.pen.alloc(), self.pen.replica().rule());
        if let Ok(Some(cure)) = cure(self.rt, alloc, self.pen.printed(), &rule, about) {
            tell_cure(self.rt, number, cure.as_str());
        }
    }

    /// Writes a file, and says so, or that it was refused. One that was written here before may be replaced.
    fn write(&mut self, target: FileTarget, text: &[u8]) -> Result<(), DrawFault> {
        let alloc = self.pen.alloc();
        let written = self.files.write(self.rt, alloc, target, text)?;
        self.pen.print(&written.line)?;
        Ok(())
    }

    /// Makes a film of what the document shows.
    fn film(&mut self, film: &Film) -> Result<(), DrawFault> {
        let alloc = self.pen.alloc();
        let mut album = FilmFiles {
            rt: self.rt,
            alloc,
            film,
            files: mem::replace(&mut self.files, OwnFiles::none(alloc)),
            progress: Progress::of(self.rt, film, self.tells_progress),
        };
        let made = self.pen.film(plan_of(film), &mut album);
        let FilmFiles { files, .. } = album;
        self.files = files;
        made?;
        Ok(())
    }

    /// Draws what a file holds.
    fn open(&mut self, file: &FileName) -> Result<(), DrawFault> {
        let key = self.pen.replica().plane().key();
        match read_opened(self.rt, self.pen.alloc(), file, key)? {
            OpenedFile::Text(text) => {
                self.warn(file.as_bytes(), &text)?;
                self.pen.open(&text)?;
            }
            OpenedFile::Refused(line) => self.pen.print(&line)?,
        }
        Ok(())
    }

    /// Does nothing for so long.
    fn sleep<O: Sink>(&mut self, milliseconds: u32, sink: &mut O) -> Result<(), DrawFault> {
        self.push_printed(sink)?;
        thread::sleep(self.rt, Duration::from_millis(u64::from(milliseconds)));
        Ok(())
    }
}

/// Says that the command of the line of this number is of a board that is served.
fn tell_of_boards<R: Eprint>(rt: &R, number: u64) {
    let _ = eprintln!(rt;
        "genedit: fault at line {number}:1: poll, wait and save are of boards that are served: `genedit join`"
    );
}
