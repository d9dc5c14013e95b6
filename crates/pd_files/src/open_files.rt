//! What a run of the program has open: the numbers of the standard streams, and which file each object has.

use std::cell::Cell;
use std::fs::{Metadata, OpenFile, OpenOptions};
use std::io::ErrorKind;
use std::os::fd::AsRawFd;
use std::os::unix::fs::{FileTypeExt, MetadataExt};
use std::rt::Files;
use std::{fs, io};

/// A file, as the system tells it apart from others, whatever its name.
#[derive(Clone, Copy, PartialEq, Eq)]
enum FileId {
    /// A block device, by its number.
    Device(u64),
    /// A file, by its file system and its number there.
    File(u64, u64),
}

/// The files of one run, which each object outside knows.
///
/// If a standard stream is closed, the next file that is opened gets its number, and what is printed goes into that file. So
/// the null device takes these numbers before another file is opened, and keeps them for as long as this is there.
///
/// A file is one object's alone: what one writes another would read. So it isn't opened by a second name.
#[derive(Drop)]
pub struct OpenFiles<'a, R: Files> {
    pub(crate) rt: &'a R,
    /// The null device in the place of each standard stream that was closed.
    _numbers: (Option<R::File>, Option<R::File>, Option<R::File>),
    /// Where standard output and standard error go, if that is a file or a block device.
    streams: [Option<FileId>; 2],
    /// Whether a device was refused since standard error goes to it. Then nothing may be said.
    is_silent: Cell<bool>,
    /// What the text and the three devices have opened.
    objects: Cell<[Option<FileId>; 4]>,
}

impl<'a, R: Files> OpenFiles<'a, R>
where
    R::File: AsRawFd,
{
    /// Takes the numbers of the standard streams that are closed. The program has opened nothing before.
    pub fn new(rt: &'a R) -> io::Result<OpenFiles<'a, R>> {
        Ok(OpenFiles {
            rt,
            _numbers: (take_number(rt)?, take_number(rt)?, take_number(rt)?),
            streams: [id_at(rt, "/proc/self/fd/1"), id_at(rt, "/proc/self/fd/2")],
            is_silent: Cell::new(false),
            objects: Cell::new([None; 4]),
        })
    }
}

impl<'a, R: Files> OpenFiles<'a, R> {
    /// Opens the file of a device. It must be there already, no directory, and nothing that is printed goes into it.
    pub(crate) fn open_device(&self, path: &str, write: bool) -> io::Result<R::File> {
        let file = OpenOptions::new()
            .read(true)
            .write(write)
            .open(self.rt, path)?;
        let metadata = file.metadata()?;
        if metadata.is_dir() {
            return Err(ErrorKind::IsADirectory.into());
        }
        let id = id_of(&metadata);
        if has(&self.streams, id) {
            self.is_silent.set(id == self.streams[1]);
            return Err(ErrorKind::ResourceBusy.into());
        }
        self.claim(id)?;
        Ok(file)
    }

    /// Opens the file of a text that is read.
    pub(crate) fn open_text(&self, path: &str) -> io::Result<R::File> {
        let file = fs::open(self.rt, path)?;
        self.claim(id_of(&file.metadata()?))?;
        Ok(file)
    }

    /// Opens the file of a text that is written, which is made if it isn't there. What it holds is lost, so it is no
    /// block device, and no file of another object.
    pub(crate) fn create_text(&self, path: &str) -> io::Result<R::File> {
        let file = OpenOptions::new()
            .write(true)
            .create(true)
            .open(self.rt, path)?;
        let metadata = file.metadata()?;
        if metadata.file_type().is_block_device() {
            return Err(ErrorKind::InvalidInput.into());
        }
        if has(&self.objects.get(), id_of(&metadata)) {
            return Err(ErrorKind::ResourceBusy.into());
        }
        if metadata.is_file() {
            file.set_len(0)?;
        }
        Ok(file)
    }

    /// Whether nothing may be printed to standard error.
    pub(crate) fn is_silent(&self) -> bool {
        self.is_silent.get()
    }

    /// Notes that an object has this file. It is refused if another one has it.
    fn claim(&self, id: Option<FileId>) -> io::Result<()> {
        let objects = self.objects.get();
        if has(&objects, id) {
            return Err(ErrorKind::ResourceBusy.into());
        }
        if id.is_some() {
            self.objects.set([id, objects[0], objects[1], objects[2]]);
        }
        Ok(())
    }
}

/// Opens the null device, which gets the least number that is free. It is kept if that is a standard stream's.
fn take_number<R: Files>(rt: &R) -> io::Result<Option<R::File>>
where
    R::File: AsRawFd,
{
    let null = OpenOptions::new()
        .read(true)
        .write(true)
        .open(rt, "/dev/null")?;
    Ok(if null.as_raw_fd() <= 2 {
        Some(null)
    } else {
        None
    })
}

/// What tells the file apart, if it is a block device or a regular file that the system numbers.
fn id_of(metadata: &Metadata) -> Option<FileId> {
    if metadata.file_type().is_block_device() {
        return Some(FileId::Device(metadata.rdev()));
    }
    if metadata.is_file() && metadata.ino() != 0 {
        return Some(FileId::File(metadata.dev(), metadata.ino()));
    }
    None
}

/// The same of the file with this name, if the system tells it.
fn id_at<R: Files>(rt: &R, path: &str) -> Option<FileId> {
    match fs::metadata(rt, path) {
        Ok(metadata) => id_of(&metadata),
        Err(_) => None,
    }
}

/// Whether the file is one of these.
fn has(files: &[Option<FileId>], id: Option<FileId>) -> bool {
    id.is_some() && files.contains(&id)
}
