//! The file that an image is read from. It does not tell its content.
ghost use Rattle.std.specs.Prelude.{true, ◌≡◌, ◌<◌, ◌≤◌, None, IsTrue, length};
ghost use Rattle.io_ends.specs.Faults.{ReadCounts};
ghost use Rattle.io_ends.specs.Taking.{IsGivenCount, ReadTakes};

use io_ends::{Got, Source};
use std::fs;
use std::fs::OpenFile;
use std::io::Read;
use std::os::unix::fs::MetadataExt;
use std::rt::Files;

/// The name that stands for an image of no bytes, and for a new image that is thrown away.
pub const NO_FILE: &str = "-";

/// Where the bytes of an image come from.
#[derive(Drop)]
enum Origin<F> {
    /// The named file, which no read has asked for yet.
    Unread,
    /// An image of no bytes.
    Nothing,
    /// An opened file.
    Opened(F),
    /// A file that could not be opened: each read fails.
    Unopened,
}

/// The image as a source: no bytes for `-`, and else the named file, which the first read opens. It counts each read that fails.
#[derive(Drop)]
pub struct ImageFile<'a, R: Files> {
    rt: &'a R,
    name: &'a str,
    origin: Origin<R::File>,
    failed: u64,
}

impl<'a, R: Files> ImageFile<'a, R> {
    /// The image of this name. Nothing is opened.
    pub fn new(rt: &'a R, name: &'a str) -> ImageFile<'a, R>
        ensures { ⟦<ImageFile<'a, R> as Source>⟧.faults result ≡ 0 }
    {
        ImageFile {
            rt,
            name,
            origin: Origin::Unread,
            failed: 0,
        }
    }

    /// The image's name.
    pub fn name(&self) -> &str
        ensures { result.now ≡ self.now.name.now }
    {
        self.name
    }

    /// Whether the name is still that of the file that was read. True where none was opened, and false where it cannot be told.
    pub fn is_current(&self) -> bool {
        match &self.origin {
            Origin::Opened(file) => is_name_of(self.rt, self.name, file),
            Origin::Unread | Origin::Nothing | Origin::Unopened => true,
        }
    }
}

impl<'a, R: Files> Source for ImageFile<'a, R> {
    ghost left = { λ _. None };

    ghost faults = { λ source. source.failed };

    ghost exact = { true };

    fn read(&mut self, into: &mut [u8]) -> Got
        requires { 0 < length into.old }
        ensures count { IsGivenCount result (length into.old) }
        ensures bytes { ReadTakes result None None into.new }
        ensures cause { ReadCounts true result self.old.failed self.new.failed }
        ensures later { self.old.failed ≤ self.new.failed }
    {
        if let Origin::Unread = &self.origin {
            self.origin = open(self.rt, self.name);
        }
        let read = match &mut self.origin {
            Origin::Nothing => return Got::End,
            Origin::Opened(file) => file.read(into).ok(),
            Origin::Unread | Origin::Unopened => None,
        };
        match read {
            Some(0) => Got::End,
            Some(count) => Got::Bytes(count),
            None => {
                self.failed = self.failed.saturating_add(1);
                Got::Failed
            }
        }
    }
}

/// The bytes of the image of this name.
fn open<R: Files>(rt: &R, name: &str) -> Origin<R::File>
    ensures { name.now ≡ NO_FILE.now → result ≡ Origin.Nothing }
{
    if name == NO_FILE {
        return Origin::Nothing;
    }
    match fs::open(rt, name) {
        Ok(file) => Origin::Opened(file),
        Err(_) => Origin::Unopened,
    }
}

/// Whether this is a name of an open file, by its device and number there. False where that cannot be told.
pub fn is_name_of<R: Files>(rt: &R, name: &str, file: &R::File) -> bool {
    match (fs::metadata(rt, name), file.metadata()) {
        (Ok(named), Ok(opened)) => named.dev() == opened.dev() && named.ino() == opened.ino(),
        _ => false,
    }
}
