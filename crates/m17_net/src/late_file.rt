use std::alloc::{AllocError, Global};
use std::fs::File;
use std::io;
use std::io::{Error, ErrorKind, Write};
use std::sync::{Arc, OnceLock};

/// A file that comes when it has been made. Until then nothing can be written to it.
#[derive(Drop)]
pub struct LateFile {
    file: Arc<OnceLock<File>, Global>,
}

impl LateFile {
    // A file that is still to come.
    pub(crate) fn make(alloc: Global) -> Result<LateFile, AllocError> {
        match Arc::new(alloc, OnceLock::new()) {
            Ok(file) => Ok(LateFile { file }),
            Err(_) => Err(AllocError),
        }
    }

    // Where the file is to be put.
    pub(crate) fn share(&self) -> Result<Arc<OnceLock<File>, Global>, AllocError> {
        match Arc::try_clone(&self.file) {
            Ok(file) => Ok(file),
            Err(_) => Err(AllocError),
        }
    }
}

// The trusted edge: one call of the file.
impl Write for LateFile {
    fn write(&mut self, buf: &[u8]) -> io::Result<usize> {
        match self.file.get() {
            Some(file) => {
                let mut file: &File = file;
                file.write(buf)
            }
            None => Err(Error::from(ErrorKind::NotFound)),
        }
    }

    fn flush(&mut self) -> io::Result<()> {
        Ok(())
    }
}
