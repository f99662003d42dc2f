//! The real outside. The objects tell nothing of their bytes and count their failed calls.

ghost use Rattle.std.specs.Prelude.{None, ◌≤◌, length, IfOk};

use lps_outside::{Desk, Fault, Source, Texts};
use std::io::{ErrorKind, Read, Seek, SeekFrom, Write};
use std::rt::Files;
use std::{fs, io};

/// How often a call is made again that a signal cut short.
const MOST_TRIES: u32 = 1_000_000;

/// Whether a signal cut a call short before it did anything, so that it is to be made again.
fn is_interrupted(tried: &io::Result<usize>) -> bool {
    match tried {
        Ok(_) => false,
        Err(error) => error.kind() == ErrorKind::Interrupted,
    }
}

/// Reads once, and again where a signal cut the read short.
fn read_again<R: Read>(reader: &mut R, into: &mut [u8]) -> io::Result<usize>
    ensures { IfOk result (λ count. count ≤ length into.old) }
{
    for _ in 0..MOST_TRIES {
        let tried = reader.read(into);
        if !is_interrupted(&tried) {
            return tried;
        }
    }
    Err(io::Error::from(ErrorKind::Interrupted))
}

/// The files of the system, by their paths.
#[derive(Drop)]
pub struct HostTexts<'a, R: Files> {
    rt: &'a R,
    faults: u64,
}

impl<'a, R: Files> HostTexts<'a, R> {
    pub fn new(rt: &'a R) -> Self {
        HostTexts { rt, faults: 0 }
    }

    fn copy(&self, name: &str, at: u64, into: &mut [u8]) -> io::Result<usize>
        ensures { IfOk result (λ count. count ≤ length into.old) }
    {
        let mut file = fs::open(self.rt, name)?;
        file.seek(SeekFrom::Start(at))?;
        read_again(&mut file, into)
    }
}

impl<'a, R: Files> Texts for HostTexts<'a, R> {
    ghost text = { λ it name. None };

    ghost faults = { λ it name. it.faults };

    fn read(&mut self, name: &str, at: u64, into: &mut [u8]) -> Result<usize, Fault> {
        match self.copy(name, at, into) {
            Ok(count) => Ok(count),
            Err(_) => {
                self.faults = self.faults.saturating_add(1);
                Err(Fault)
            }
        }
    }
}

/// A reader, as standard input.
#[derive(Drop)]
pub struct HostSource<R: Read + Drop> {
    inner: R,
    faults: u64,
}

impl<R: Read + Drop> HostSource<R> {
    pub fn new(inner: R) -> Self {
        HostSource { inner, faults: 0 }
    }
}

impl<R: Read + Drop> Source for HostSource<R> {
    ghost stream = { λ it. None };

    ghost faults = { λ it. it.faults };

    fn read(&mut self, into: &mut [u8]) -> Result<usize, Fault> {
        match read_again(&mut self.inner, into) {
            Ok(count) => Ok(count),
            Err(_) => {
                self.faults = self.faults.saturating_add(1);
                Err(Fault)
            }
        }
    }
}

/// A writer, as standard output. Each print goes out at once; a write that a signal cuts short is made again.
#[derive(Drop)]
pub struct HostDesk<W: Write + Drop> {
    inner: W,
    faults: u64,
}

impl<W: Write + Drop> HostDesk<W> {
    pub fn new(inner: W) -> Self {
        HostDesk { inner, faults: 0 }
    }
}

impl<W: Write + Drop> Desk for HostDesk<W> {
    ghost printed = { λ it. None };

    ghost print_faults = { λ it. it.faults };

    fn print(&mut self, bytes: &[u8]) -> Result<(), Fault> {
        match self.inner.write_all(bytes) {
            Ok(()) => Ok(()),
            Err(_) => {
                self.faults = self.faults.saturating_add(1);
                Err(Fault)
            }
        }
    }
}
