//! The program: it hands its words, standard input, standard output, the system's clock and two files to `command::run`.
#![tactic(auto)]

use command::{NO_MEMORY, NOT_A_COMMAND, run};
use disk_port::FileDisk;
use ports::{ReadSource, SystemClock, WriteSink};
use std::alloc::{AllocError, Global};
use std::env::{self, Args};
use std::fs::File;
use std::io;
use std::process::ExitCode;
use std::rt::Files;

/// The words after the program's name: the folder of the universe's files, and the command.
fn words_of(args: Args, rt: &impl AllocGlobal) -> Result<Vec<String>, AllocError> {
    args.skip(1).collect(rt.alloc())
}

/// The path of a file in a folder.
fn path_of(alloc: Global, folder: &str, name: &str) -> Result<String, AllocError> {
    format!(in alloc; "{folder}/{name}")
}

/// The status if the words cannot be had: out of memory, or words that aren't text.
fn refusal(error: &io::Error) -> u8 {
    match error.kind() {
        io::ErrorKind::OutOfMemory => NO_MEMORY,
        _ => NOT_A_COMMAND,
    }
}

fn main(rt: HostRuntime) -> ExitCode {
    let args = match env::args(&rt) {
        Ok(args) => args,
        Err(error) => return ExitCode::from(refusal(&error)),
    };
    let Ok(words) = words_of(args, &rt) else {
        return ExitCode::from(NO_MEMORY);
    };
    let [folder, command @ ..] = words.as_slice() else {
        return ExitCode::from(NOT_A_COMMAND);
    };
    let Ok(left_path) = path_of(rt.alloc(), folder, "left.area") else {
        return ExitCode::from(NO_MEMORY);
    };
    let Ok(right_path) = path_of(rt.alloc(), folder, "right.area") else {
        return ExitCode::from(NO_MEMORY);
    };
    let mut source = ReadSource::new(rt.stdin());
    let mut sink = WriteSink::new(rt.stdout());
    let mut clock = SystemClock::new(&rt);
    let left = FileDisk::new(&rt, &left_path);
    let right = FileDisk::new(&rt, &right_path);
    let served = run(
        rt.alloc(),
        command,
        &mut source,
        &mut sink,
        left,
        right,
        &mut clock,
    );
    for (path, disk) in [(&left_path, &served.left), (&right_path, &served.right)] {
        if let Some(error) = disk.last_error() {
            let _ = eprintln!(rt; "{path}: {error}");
        }
    }
    ExitCode::from(served.status)
}
