//! The file that a new image goes to, and how it takes the image's place. It does not tell its content.
ghost use Rattle.std.specs.Prelude.{true, ◌≡◌, ◌<◌, ◌≤◌, None, IfSome, IsNone, IsTrue, length};
ghost use Rattle.io_ends.specs.Faults.{WriteCounts};
ghost use Rattle.io_ends.specs.Giving.{IsTakenCount, WriteGives};

use crate::image_file::{ImageFile, is_name_of};
use io_ends::{Put, Sink};
use std::fs::{File, OpenFile};
use std::io::Write;
use std::path::Path;
use std::rt::Files;
use std::{fs, io};

/// The new image as a sink. Its first write makes a file, whose name must be that of none yet: so of the runs on one image only one at
/// a time has such a file. It counts each write that fails, and a file that cannot be made.
#[derive(Drop)]
pub struct NewImage<'a, R: Files> {
    rt: &'a R,
    /// The file's name; none where the image is thrown away.
    name: Option<&'a str>,
    file: Option<R::File>,
    failed: u64,
}

impl<'a, R: Files> NewImage<'a, R> {
    /// A new image that goes to a file of this name, or nowhere.
    pub fn new(rt: &'a R, name: Option<&'a str>) -> NewImage<'a, R>
        ensures { ⟦<NewImage<'a, R> as Sink>⟧.faults result ≡ 0 }
    {
        NewImage {
            rt,
            name,
            file: None,
            failed: 0,
        }
    }

    /// Puts the new image in the place of the image, if a file was made for it, once both it and the names of its folder are on the
    /// disk. False where that fails, or where another file has taken the image's place since it was read.
    ///
    /// Until the renaming the image is as before, and where it does not come to that the new file is removed. Only the names may fail
    /// to come to the disk after it.
    pub fn replace(&self, image: &ImageFile<'_, R>) -> bool
        ensures unmade { IsNone self.now.file → IsTrue result }
    {
        let (Some(name), Some(file)) = (self.name, &self.file) else {
            return true;
        };
        match rename_over(self.rt, name, file, image) {
            Ok(folder) => folder.sync_all().is_ok(),
            Err(_) => {
                self.remove();
                false
            }
        }
    }

    /// Removes the file, if one was made. Where that fails it stays.
    pub fn remove(&self) {
        if let (Some(name), Some(file)) = (self.name, &self.file) {
            if is_name_of(self.rt, name, file) {
                let _ = fs::remove_file(self.rt, name);
            }
        }
    }
}

impl<'a, R: Files> Sink for NewImage<'a, R> {
    ghost written = { λ _. None };

    ghost faults = { λ sink. sink.failed };

    ghost exact = { true };

    fn write(&mut self, piece: &[u8]) -> Put
        requires { 0 < length piece.now }
        ensures count { IsTakenCount result (length piece.now) }
        ensures bytes { WriteGives result None None piece.now }
        ensures cause { WriteCounts true result self.old.failed self.new.failed }
        ensures later { self.old.failed ≤ self.new.failed }
    {
        let Some(name) = self.name else {
            return Put::Took(piece.len());
        };
        if self.file.is_none() {
            self.file = File::create_new(self.rt, name).ok();
        }
        let took = match &mut self.file {
            Some(file) => write_some(file, piece),
            None => None,
        };
        match took {
            Some(count) => Put::Took(count),
            None => {
                self.failed = self.failed.saturating_add(1);
                Put::Failed
            }
        }
    }
}

/// How many bytes of a piece a file took, at least 1. None where the write failed or took nothing.
fn write_some<W: Write>(file: &mut W, piece: &[u8]) -> Option<usize>
    ensures { IfSome result (λ count. (0 < count) × (count ≤ length piece.now)) }
{
    let count = file.write(piece).ok()?;
    if count == 0 {
        return None;
    }
    file.flush().ok()?;
    Some(count)
}

/// Renames a file that this run made over the image, and gives the folder of both, whose names are then to be synced.
///
/// No other run renames over the image between the look at its name and the renaming: it would have to make a file of this one's name.
fn rename_over<R: Files>(
    rt: &R,
    name: &str,
    file: &R::File,
    image: &ImageFile<'_, R>,
) -> io::Result<R::File> {
    let folder = fs::open(rt, folder_of(image.name()))?;
    file.sync_all()?;
    folder.sync_all()?;
    if !is_name_of(rt, name, file) || !image.is_current() {
        return Err(io::Error::from(io::ErrorKind::Other));
    }
    fs::rename(rt, name, image.name())?;
    Ok(folder)
}

/// The folder that a name is in.
fn folder_of(name: &str) -> &str
    ensures { 0 < length result.now }
{
    match Path::new(name).parent() {
        Some(folder) if !folder.as_str().is_empty() => folder.as_str(),
        _ => ".",
    }
}
