// The file with the records of the commits.
ghost use Rattle.std.specs.Io.{WritesAtMost};

use crate::trouble::{Trouble, What};
use std::fs::{File, OpenOptions};
use std::io;
use std::io::{ErrorKind, Read, Write};
use std::path::Path;

// Where the file is.
#[derive(Clone, Copy)]
pub struct Place<'h> {
    pub rt: &'h HostRuntime,
    pub name: &'h str,
}

#[derive(Drop)]
pub struct Disk {
    file: File,
}

impl<'h> Place<'h> {
    // The file, which is made if there is none.
    fn opened(self) -> io::Result<File> {
        let file = OpenOptions::new()
            .read(true)
            .append(true)
            .create(true)
            .open(self.rt, self.name)?;
        if !file.metadata()?.is_file() {
            return Err(io::Error::new(ErrorKind::InvalidInput, "it is no plain file"));
        }
        Ok(file)
    }

    // The folder that the file is in.
    fn folder(self) -> Path<'h> {
        match Path::new(self.name).parent() {
            Some(folder) if !folder.as_str().is_empty() => folder,
            _ => Path::new("."),
        }
    }

    fn synced(self) -> io::Result<()> {
        File::open(self.rt, self.folder())?.sync_all()
    }

    pub fn open(self) -> Result<Disk, Trouble> {
        let file = self.opened().map_err(|why| Trouble::file(What::Open, why))?;
        Ok(Disk { file })
    }

    // Returns once the file's name is on the disk.
    pub fn sync(self) -> Result<(), Trouble> {
        self.synced()
            .map_err(|why| Trouble::file(What::SyncName, why))
    }
}

impl Disk {
    // The next bytes of the file go to the front of the piece, and the answer is how many; 0 at the end.
    pub fn read(&mut self, piece: &mut [u8]) -> Result<usize, Trouble>
        ensures { WritesAtMost result piece.new }
    {
        self.file
            .read(piece)
            .map_err(|why| Trouble::file(What::Read, why))
    }

    pub fn cut(&mut self, bytes: u64) -> Result<(), Trouble> {
        self.file
            .set_len(bytes)
            .map_err(|why| Trouble::file(What::Cut, why))
    }

    // The bytes go behind the last of the file.
    pub fn append(&mut self, bytes: &[u8]) -> Result<(), Trouble> {
        self.file
            .write_all(bytes)
            .map_err(|why| Trouble::file(What::Write, why))
    }

    // Returns once all of the file is on the disk.
    pub fn sync(&mut self) -> Result<(), Trouble> {
        self.file
            .sync_all()
            .map_err(|why| Trouble::file(What::Sync, why))
    }
}
