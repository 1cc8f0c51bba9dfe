//! The files that a run has opened: each once, and in a folder that no other run has.
ghost use Rattle.std.specs.Prelude.{◌≡◌, is_some};

use std::alloc::Global;
use std::fs::File;
use std::io;
use std::io::ErrorKind;
use std::marker::Model;
use std::os::unix::fs::MetadataExt;
use std::rt::Files;

// A regular file of the system, whatever its names.
#[derive(Clone, Copy, PartialEq, Eq)]
struct Node {
    device: u64,
    number: u64,
}

/// The files that were opened so far, and the lock of the folder that they stand in. Contracts see whether there is one.
#[derive(Drop)]
pub(crate) struct OpenFiles {
    lock: Option<String>,
    held: Option<File>,
    nodes: Vec<Node>,
}

impl Model for OpenFiles {
    ghost use Rattle.std.specs.Prelude.{Bool, is_some};

    ghost Value = { Bool };

    ghost view = { λ files. is_some files.lock };
}

impl OpenFiles {
    // None is open yet. The file of this name is to be locked before the first is, where there is a name.
    pub(crate) fn new(alloc: Global, lock: Option<String>) -> OpenFiles
        ensures { result ≡ is_some lock }
    {
        OpenFiles {
            lock,
            held: None,
            nodes: Vec::new(alloc),
        }
    }

    // The file of this name, made or cut, where no other run has the folder and this one has not opened the file before. A
    // file that was opened before stays as it is, and so does each other where another run has the folder.
    pub(crate) fn open_anew<R: Files<File = File>>(&mut self, files: &R, name: &str) -> Option<File>
        ensures same { self.new ≡ self.old }
    {
        if !self.has_folder(files) {
            return None;
        }
        let file = open_uncut(files, name).ok()?;
        if self.is_first(&file)? {
            file.set_len(0).ok()?;
        }
        Some(file)
    }

    // Whether a file is a regular one, which was not opened before, and is noted now; none where it was.
    fn is_first(&mut self, file: &File) -> Option<bool>
        ensures same { self.new ≡ self.old }
    {
        let data = file.metadata().ok()?;
        if !data.is_file() {
            return Some(false);
        }
        let node = Node {
            device: data.dev(),
            number: data.ino(),
        };
        if self.nodes.contains(&node) {
            return None;
        }
        self.nodes.push(node).ok()?;
        Some(true)
    }

    // Whether the folder is this run's, or has no lock: none was asked for, or the folder isn't there or nothing can be made
    // in it.
    fn has_folder<R: Files<File = File>>(&mut self, files: &R) -> bool
        ensures same { self.new ≡ self.old }
    {
        let Some(name) = &self.lock else {
            return true;
        };
        if self.held.is_some() {
            return true;
        }
        match open_lock(files, name.as_str()) {
            Ok(file) => self.hold(file),
            Err(e) => e.kind() == ErrorKind::NotFound,
        }
    }

    // Holds the lock, where no other run does.
    fn hold(&mut self, file: File) -> bool
        ensures same { self.new ≡ self.old }
    {
        if file.try_lock().is_err() || self.is_first(&file).is_none() {
            return false;
        }
        self.held = Some(file);
        true
    }
}

// The file of this name, which is made where it is missing, and otherwise left as it is.
fn open_uncut<R: Files<File = File>>(files: &R, name: &str) -> io::Result<File> {
    let mut how = File::options();
    how.write(true);
    how.create(true);
    how.open(files, name)
}

// The same of a lock, which may be read alone where it can't be written to.
fn open_lock<R: Files<File = File>>(files: &R, name: &str) -> io::Result<File> {
    match open_uncut(files, name) {
        Ok(file) => Ok(file),
        Err(e) if e.kind() == ErrorKind::NotFound => Err(e),
        Err(_) => File::open(files, name),
    }
}
