// A disk over a file.
ghost use Rattle.std.specs.Prelude.{◌≡◌, Ok, IsErr, MatchResult};
ghost use Rattle.std.specs.Io.{ReadsAtMost};
ghost use Rattle.ports.specs.Causes.{HasCause};
ghost use Rattle.disk_port.specs.Silent.{silent, silent_is_lawful};

use crate::disk::Disk;
use ports::Failed;
use std::fs::{File, OpenOptions};
use std::io;
use std::os::unix::fs::FileExt;
use std::path::Path;
use std::rt::Files;

/// A disk over a file, which the first call opens, or creates if it is not there. It tells nothing of its content: that the
/// system keeps what it was given is not claimed. After a sync that failed each later sync fails too.
#[derive(Drop)]
pub struct FileDisk<'a, R> {
    file: NamedFile<'a, R>,
    calls: u64,
    faults: u64,
    error: Option<io::Error>,
}

impl<'a, R: Files<File = File>> FileDisk<'a, R> {
    /// Makes a disk over the file with this path. It opens nothing yet.
    pub fn new(system: &'a R, path: &'a str) -> Self
        ensures { ⟦<FileDisk<'a, R> as Disk>⟧.faults result ≡ 0 }
    {
        FileDisk {
            file: NamedFile {
                system,
                path,
                opened: None,
                is_named: false,
                is_lost: false,
            },
            calls: 0,
            faults: 0,
            error: None,
        }
    }

    /// How many calls have failed, up to 2^64 - 1.
    pub fn fault_count(&self) -> u64
        ensures { result ≡ ⟦<FileDisk<'a, R> as Disk>⟧.faults self.now }
    {
        self.faults
    }

    /// What the system said when a call last failed, if one has failed.
    pub fn last_error(&self) -> Option<&io::Error> {
        self.error.as_ref()
    }
}

impl<R: Files<File = File>> Disk for FileDisk<'_, R> {
    ghost story = { silent };

    ghost calls = { λ disk. disk.calls };

    ghost faults = { λ disk. disk.faults };

    ghost laws = { silent_is_lawful };

    fn len(&mut self) -> Result<u64, Failed> {
        self.calls = self.calls.saturating_add(1);
        count(self.file.measure(), &mut self.faults, &mut self.error)
    }

    fn read_at(&mut self, at: u64, into: &mut [u8]) -> Result<usize, Failed> {
        self.calls = self.calls.saturating_add(1);
        count(self.file.read(at, into), &mut self.faults, &mut self.error)
    }

    fn write_at(&mut self, at: u64, from: &[u8]) -> Result<(), Failed> {
        self.calls = self.calls.saturating_add(1);
        count(self.file.write(at, from), &mut self.faults, &mut self.error)
    }

    fn cut(&mut self, len: u64) -> Result<(), Failed> {
        self.calls = self.calls.saturating_add(1);
        count(self.file.shorten(len), &mut self.faults, &mut self.error)
    }

    fn sync(&mut self) -> Result<(), Failed> {
        self.calls = self.calls.saturating_add(1);
        count(self.file.settle(), &mut self.faults, &mut self.error)
    }
}

// A file with a path, opened or not; whether a sync made sure of its name; and whether a sync failed.
#[derive(Drop)]
struct NamedFile<'a, R> {
    system: &'a R,
    path: &'a str,
    opened: Option<File>,
    is_named: bool,
    is_lost: bool,
}

impl<R: Files<File = File>> NamedFile<'_, R> {
    // The file, opened if it isn't open. Whoever takes it puts it back.
    fn take(&mut self) -> io::Result<File> {
        match self.opened.take() {
            Some(file) => Ok(file),
            None => OpenOptions::new()
                .read(true)
                .write(true)
                .create(true)
                .open(self.system, self.path),
        }
    }

    fn measure(&mut self) -> io::Result<u64> {
        let file = self.take()?;
        let measured = file.metadata();
        self.opened = Some(file);
        Ok(measured?.len())
    }

    fn read(&mut self, at: u64, into: &mut [u8]) -> io::Result<usize>
        ensures { ReadsAtMost result into.new }
    {
        let file = self.take()?;
        let count = read_all_at(&file, at, into);
        self.opened = Some(file);
        count
    }

    fn write(&mut self, at: u64, from: &[u8]) -> io::Result<()> {
        let file = self.take()?;
        let written = file.write_all_at(from, at);
        self.opened = Some(file);
        written
    }

    fn shorten(&mut self, len: u64) -> io::Result<()> {
        let file = self.take()?;
        let shortened = cut_file(&file, len);
        self.opened = Some(file);
        shortened
    }

    // After a sync that failed the system may have dropped what it could not write, and would say that all is well. So none
    // is tried again.
    fn settle(&mut self) -> io::Result<()> {
        if self.is_lost {
            let message = "an earlier sync failed";
            return Err(io::Error::new(io::ErrorKind::Other, message));
        }
        let file = self.take()?;
        let synced = self.sync(&file);
        self.opened = Some(file);
        self.is_lost = synced.is_err();
        synced
    }

    // The first sync makes sure of the file's name too.
    fn sync(&mut self, file: &File) -> io::Result<()> {
        file.sync_all()?;
        if !self.is_named {
            sync_folder(self.system, self.path)?;
            self.is_named = true;
        }
        Ok(())
    }
}

// Counts a failure, and keeps what the system said.
fn count<T>(
    outcome: io::Result<T>,
    faults: &mut u64,
    error: &mut Option<io::Error>,
) -> Result<T, Failed>
    ensures value { MatchResult outcome (λ value. result ≡ Ok value) (λ _. IsErr result) }
    ensures cause { HasCause faults.old faults.new result }
{
    match outcome {
        Ok(value) => Ok(value),
        Err(said) => {
            *faults = faults.saturating_add(1);
            *error = Some(said);
            Err(Failed)
        }
    }
}

// Reads from this place on until there is no more room or the file ends.
fn read_all_at(file: &File, at: u64, into: &mut [u8]) -> io::Result<usize>
    ensures { ReadsAtMost result into.new }
{
    let mut read = 0;
    'pieces: while read < into.len() {
        let count = file.read_at(&mut into[read..], at.saturating_add(read as u64))?;
        if count == 0 {
            break;
        }
        read += count;
    }
    Ok(read)
}

fn cut_file(file: &File, len: u64) -> io::Result<()> {
    if len < file.metadata()?.len() {
        file.set_len(len)?;
    }
    Ok(())
}

fn sync_folder<R: Files<File = File>>(system: &R, path: &str) -> io::Result<()> {
    let path = Path::new(path);
    let folder = match path.parent() {
        Some(folder) if !folder.as_str().is_empty() => folder,
        _ => Path::new("."),
    };
    File::open(system, folder)?.sync_all()
}
