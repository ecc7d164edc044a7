// Prints the operations of a collected stream, one a line. `decode FILE` takes a file of at most 65,536 bytes.
#![tactic(auto)]

mod failure;
mod report;

use decoder::{Cursor, Reading};
use failure::Failure;
use std::env::{Env, FillError};
use std::fmt::Display;
use std::fs::File;
use std::io;
use std::io::{Read, Stderr, Stdout, Write};

const MAX_STREAM: usize = 65536;

// One byte more than a stream may have: a longer file fills it.
const BUFFER_LENGTH: usize = 65537;

// Room for any path.
const PATH_LENGTH: usize = 4096;

// Prints all that stands in a stream, from its start to its end.
fn print_all(out: Stdout, s: &[u8]) {
    let mut cursor = Cursor { at: 0 };
    while let Some(Reading { item, next }) = cursor.read(s) {
        let line = report::begin(out, cursor.at);
        match item {
            Ok(op) => report::operation(line, op, decoder::data(s, op, next)),
            Err(fault) => report::fault(line, fault, &s[cursor.at..next.at]),
        }
        cursor = next;
    }
}

// Reads a file to its end, or until it is longer than a stream may be.
fn read_stream(file: File, buffer: &mut [u8; BUFFER_LENGTH]) -> Result<&[u8], Failure> {
    let mut room: &mut [u8] = buffer;
    let n = io::copy(&mut file.take(BUFFER_LENGTH as u64), &mut room)?;
    buffer[..MAX_STREAM]
        .get(..n as usize)
        .ok_or(Failure::TooLong)
}

fn decode(rt: HostRuntime, path: &[u8]) -> Result<(), Failure> {
    let file = File::open(&rt, str::from_utf8(path)?)?;
    // Stays: fs::read and read_to_end allocate, and the memory of the programs is fixed.
    let mut buffer = [0u8; BUFFER_LENGTH];
    print_all(rt.stdout(), read_stream(file, &mut buffer)?);
    Ok(())
}

// A line to standard error: what failed, a colon and why. What a failed write leaves out is not written again.
fn say<W: Display + Drop>(mut err: Stderr, what: &[u8], why: W) {
    let _ = err.write_all(what);
    let _ = err.write_all(b": ");
    let _ = write!(err, "{why}");
    let _ = err.write_all(b"\n");
}

fn main(rt: HostRuntime) {
    // Stays: env::args allocates, and the memory of the programs is fixed.
    let mut path = [0u8; PATH_LENGTH];
    match (rt.arg(1, &mut path), rt.arg(2, &mut [0])) {
        (Ok(n), Err(FillError::NotPresent)) => {
            let path = &path[..n];
            if let Err(failure) = decode(rt, path) {
                say(rt.stderr(), path, failure);
            }
        }
        (Err(FillError::TooLong), Err(FillError::NotPresent)) => {
            say(rt.stderr(), b"FILE", "File name too long");
        }
        _ => {
            let _ = eprintln!(rt; "usage: decode FILE");
        }
    }
}
