//! The file of the mask.

use std::fs::File;
use std::io::{self, ErrorKind, Read};
use std::rt::Files;

/// The file of a name, as a reader. One that could not be opened fails at each read.
#[derive(Drop)]
pub(crate) struct MaskFile<R: Files> {
    file: Option<R::File>,
}

impl<R: Files> MaskFile<R> {
    /// The file of this name.
    pub(crate) fn open(files: &R, name: &str) -> MaskFile<R> {
        MaskFile {
            file: File::open(files, name).ok(),
        }
    }
}

impl<R: Files> Read for MaskFile<R> {
    fn read(&mut self, buf: &mut [u8]) -> io::Result<usize> {
        match &mut self.file {
            Some(file) => file.read(buf),
            None => Err(ErrorKind::NotFound.into()),
        }
    }
}
