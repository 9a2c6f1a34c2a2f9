//! Running a row.

use crate::comparing::{Ended, differences};
use crate::row::{Row, RowFile, Talk, Word};
use crate::world::World;
use command_line::perform;
use commands::Status;
use disk_file::Unknown;
use std::alloc::{AllocError, Global};
use std::fs::{self, File, OpenOptions};
use std::io::{self, Stdout, Write};
use std::net::Net;
use std::os::unix::fs::OpenOptionsExt;
use std::random::RandomSource;
use std::rt::{Clock, Files};
use std::time::Duration;

/// The machine's clock, where a row does not set it.
const NOW: u64 = 1060;

/// The file of a talk.
const TRANSCRIPT: &str = "transcript";

/// The machine's clock, which tells the same time since 1970 at each look.
#[derive(Drop)]
struct Standing<'m, R> {
    machine: &'m R,
    now: Duration,
}

impl<R: Clock> Clock for Standing<'_, R> {
    fn monotonic(&self) -> io::Result<Duration> {
        self.machine.monotonic()
    }

    fn since_1970(&self) -> io::Result<Duration> {
        Ok(self.now)
    }
}

/// Writes a file that its owner alone may read.
fn write_file<R: Files>(rt: &R, name: &str, bytes: &[u8]) -> io::Result<()> {
    let mut how = OpenOptions::new();
    how.write(true).create(true).truncate(true).mode(0o600);
    let mut file = how.open(rt, name)?;
    file.write_all(bytes)
}

/// Removes the files of a row. One that is not there stays away.
fn remove_files<R: Files>(rt: &R, files: &[RowFile]) {
    for file in files {
        let _ = fs::remove_file(rt, file.name.as_str());
    }
    let _ = fs::remove_file(rt, TRANSCRIPT);
}

/// A row, and where it runs.
#[derive(Drop)]
struct Runner<'m, R> {
    rt: &'m R,
    alloc: Global,
    stdout: Stdout,
    row: &'m Row,
}

impl<R: Files<File = File> + Net + Clock + RandomSource + AllocGlobal> Runner<'_, R> {
    /// Carries out a command line. Where memory is refused the runner stops, unless the row wants that.
    fn ended(&self, words: &[String]) -> io::Result<Ended> {
        let (mut out, mut err) = (Vec::new(self.alloc), Vec::new(self.alloc));
        let status = perform::<_, _, _, Unknown>(
            self.rt,
            words,
            self.stdout,
            &mut out,
            &mut err,
        ).code();
        if status == Status::NoMemory.code() && self.row.status != Some(status) {
            return Err(io::Error::from(AllocError));
        }
        Ok(Ended { status, out, err })
    }

    /// Carries out a command on a file.
    fn ended_on(&self, command: &str, file: &str) -> io::Result<Ended> {
        let mut words = Vec::new(self.alloc);
        for word in [command, file] {
            words.push(String::from_str(self.alloc, word)?)?;
        }
        self.ended(&words)
    }

    /// Writes the files of the row, and tells what is wrong with one that is to be assembled, if anything is.
    fn write_files(&self) -> io::Result<String> {
        for file in &self.row.files {
            let name = file.name.as_str();
            write_file(self.rt, name, &file.bytes)?;
            if file.is_assembled {
                let Ended { status, out, err } = self.ended_on("asm", name)?;
                if status != 0 {
                    let why = String::from_utf8_lossy(self.alloc, &err)?;
                    return Ok(format!(in self.alloc; ": {name} is not assembled: {why:?}")?);
                }
                write_file(self.rt, name, &out)?;
            }
        }
        Ok(String::new(self.alloc))
    }

    /// The words that a command is called with. Of a file a word has all but the last line end.
    fn written(&self, words: &[Word]) -> io::Result<Vec<String>> {
        let mut written = Vec::new(self.alloc);
        for word in words {
            written.push(match word {
                Word::Text(text) => String::from_str(self.alloc, text)?,
                Word::OfFile(name) => {
                    let text = fs::read_to_string(self.rt, name.as_str())?;
                    let word = text.strip_suffix('\n').unwrap_or(text.as_str());
                    String::from_str(self.alloc, word)?
                }
            })?;
        }
        Ok(written)
    }

    /// Runs command lines, up to the first that ends otherwise, and tells what differs.
    fn run_commands(&self) -> io::Result<String> {
        for command in &self.row.commands {
            let ended = self.ended(&self.written(command)?)?;
            let told = differences(self.alloc, self.row, &ended)?;
            if !told.is_empty() {
                return Ok(told);
            }
        }
        Ok(String::new(self.alloc))
    }

    /// Runs a talk, up to the first place of a cut at which it ends otherwise, and tells what differs.
    fn run_talk(&self, talk: &Talk) -> io::Result<String> {
        let places = talk.places(self.alloc)?;
        if places.is_empty() {
            return Ok(String::from_str(self.alloc, ": nothing can be cut")?);
        }
        for place in &places {
            let transcript = talk.transcript(self.alloc, *place)?;
            write_file(self.rt, TRANSCRIPT, transcript.as_bytes())?;
            let ended = self.ended_on("replay", TRANSCRIPT)?;
            let told = differences(self.alloc, self.row, &ended)?;
            match *place {
                _ if told.is_empty() => {}
                0 => return Ok(told),
                place => {
                    return Ok(format!(in self.alloc; ": cut behind {place} bytes{told}")?);
                }
            }
        }
        Ok(String::new(self.alloc))
    }
}

/// Runs a row, and tells what differs: nothing, where all ended as it is to end. Its files are removed behind it.
pub fn run_row<R: Files<File = File> + Net + Clock + RandomSource + AllocGlobal>(
    rt: &R,
    stdout: Stdout,
    row: &Row,
) -> io::Result<String> {
    let clock = Standing {
        machine: rt,
        now: Duration::from_secs(row.now.unwrap_or(NOW)),
    };
    let world = World { machine: rt, clock };
    let runner = Runner {
        rt: &world,
        alloc: rt.alloc(),
        stdout,
        row,
    };
    let mut told = runner.write_files()?;
    if told.is_empty() {
        told = match &row.talk {
            Some(talk) => runner.run_talk(talk)?,
            None => runner.run_commands()?,
        };
    }
    remove_files(&world, &row.files);
    Ok(told)
}
