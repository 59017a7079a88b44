// The store and its file as they answer a conversation.
use crate::disk::{Disk, Place};
use crate::trouble::Trouble;
use anyhow::anyhow;
use conversation::Service;
use journal::Journal;
use model::{Answer, Call, Reply, Request};
use store::{Flaw, OpenError, Reader, Store};

#[derive(Drop)]
pub struct Hall<'h, 't, 's, 'a, 'j> {
    place: Place<'h>,
    store: &'h mut Store<'t, 's, 'a>,
    // records that are not yet in the file
    journal: &'h mut Journal<'j>,
    disk: Disk,
}

// So many bytes of the file are read at once.
const PIECE: usize = 65536;

impl<'h, 't, 's, 'a, 'j> Hall<'h, 't, 's, 'a, 'j> {
    // Opens the file. Nothing of it is read yet.
    pub fn open(
        place: Place<'h>,
        store: &'h mut Store<'t, 's, 'a>,
        journal: &'h mut Journal<'j>,
    ) -> Result<Hall<'h, 't, 's, 'a, 'j>, Trouble> {
        let disk = place.open()?;
        Ok(Hall {
            place,
            store,
            journal,
            disk,
        })
    }
}

impl Hall<'_, '_, '_, '_, '_> {
    // Takes up what is in the file, which was opened just now. Where a record is bad, says so, and the file stays as it is.
    pub fn load(&mut self) -> Result<(), Trouble> {
        let mut reader = Reader::new(self.place.rt.alloc());
        let size = self.read_all(&mut reader)?;
        match self.store.open(&reader) {
            Ok(bytes) => self.keep(bytes, size),
            Err(OpenError::Bad(flaw)) => {
                self.tell(flaw);
                Ok(())
            }
            Err(OpenError::NotLoading) => Err(Trouble::Other(anyhow!(
                "there is no room for the versions"
            ))),
        }
    }

    // Reads the file to its end, or up to a bad record. The answer is how many bytes were read.
    fn read_all(&mut self, reader: &mut Reader) -> Result<u64, Trouble> {
        let mut piece = vec![in self.place.rt.alloc(); 0u8; PIECE]?;
        let mut size = 0u64;
        self.store.load();
        for _ in 0..u64::MAX {
            let n = self.disk.read(piece.as_mut_slice())?;
            if n == 0 || reader.flaw().is_some() {
                break;
            }
            self.store.read_on(reader, &piece[0..n])?;
            size = size.saturating_add(n as u64);
        }
        Ok(size)
    }

    // Keeps the whole records of the file: cuts off what is behind them, and has them on the disk.
    fn keep(&mut self, bytes: u64, size: u64) -> Result<(), Trouble> {
        if bytes < size {
            self.disk.cut(bytes)?;
        }
        self.disk.sync()?;
        // An empty file may be new. Nothing is written before its name is on the disk.
        if size == 0 {
            self.place.sync()?;
        }
        Ok(())
    }

    // Says which record of the file is bad. Where nobody can be told, all goes on.
    fn tell(&self, flaw: Flaw) {
        let Place { rt, name } = self.place;
        let Flaw { at, why } = flaw;
        let _ = eprintln!(rt;
            "engine: {name} can't be read: the record at byte {at} is bad: {why}"
        );
    }

    // The records go to the file.
    fn write_out(&mut self) -> Result<(), Trouble> {
        let records = self.journal.held();
        if !records.is_empty() {
            self.disk.append(records)?;
        }
        self.journal.clear();
        Ok(())
    }

    // Has room for the record of any commit.
    fn make_room(&mut self) -> Result<(), Trouble> {
        if self.journal.has_room() {
            return Ok(());
        }
        self.write_out()
    }

    fn stop(&mut self) -> Result<Reply, Trouble> {
        self.write_out()?;
        self.disk = self.place.open()?;
        self.load()?;
        Ok(Ok(Answer::Done))
    }

    fn sync(&mut self, request: Request) -> Result<Reply, Trouble> {
        let reply = self.store.answer_recording(request, self.journal);
        if reply.is_ok() {
            self.write_out()?;
            self.disk.sync()?;
        }
        Ok(reply)
    }
}

impl Service for Hall<'_, '_, '_, '_, '_> {
    type Trouble = Trouble;

    fn answer(&mut self, request: Request) -> Result<Reply, Trouble> {
        self.make_room()?;
        match request {
            Request::Whole(Call::Stop) => self.stop(),
            Request::Whole(Call::Sync) => self.sync(request),
            _ => Ok(self.store.answer_recording(request, self.journal)),
        }
    }

    fn settle(&mut self) -> Result<(), Trouble> {
        self.write_out()
    }
}
