// The reading program's report on each stored card that is named as an argument, so that many cards are tried by one crate.
#![tactic(auto)]

use card::Refusal;
use std::env::FillError;
use std::fs::File;
use std::io::{ErrorKind, Write};
use std::rt::{Env, Files};
use std::{io, str};

// Opens the file at a path; no path that is not UTF-8 can be opened.
fn open<R: Files>(rt: &R, path: &[u8]) -> io::Result<R::File> {
    match str::from_utf8(path) {
        Ok(text) => File::open(rt, text),
        Err(_) => Err(io::Error::from(ErrorKind::InvalidInput)),
    }
}

// The path, and the report on the card there, or on standard error why it cannot be opened.
fn case(rt: &HostRuntime, path: &[u8]) -> io::Result<()> {
    let mut out = rt.stdout();
    out.write_all(b"== ")?;
    out.write_all(path)?;
    out.write_all(b"\n")?;
    let mut file = match open(rt, path) {
        Ok(file) => file,
        Err(e) => {
            let mut err = rt.stderr();
            err.write_all(path)?;
            return writeln!(err, ": {e}");
        }
    };
    let mut card = [0u8; 65537];
    let n = reader_report::read_full(&mut file, &mut card)?;
    if 65536 < n {
        return reader_report::refused(&mut out, u32::from(Refusal::Shape));
    }
    reader_report::report(&mut out, &card[0..n])
}

// A case for each argument; one of more than 64 bytes counts as empty.
fn main(rt: HostRuntime) -> io::Result<()> {
    for i in 1..usize::MAX {
        let mut name = [0u8; 64];
        let k = match rt.arg(i, &mut name) {
            Ok(k) => k,
            Err(FillError::TooLong) => 0,
            Err(FillError::NotPresent) => break,
        };
        case(&rt, &name[0..k])?;
    }
    Ok(())
}
