// Opens a file.
ghost use Rattle.store.specs.Answers.{Promising};
ghost use Rattle.store.specs.Opening.{Starts, ReadOn, Idles, Opens, OpensCut, SmallFine, NotOpened};

use super::Store;
use crate::opening::OpenError;
use crate::reader::Reader;
use crate::stage::Stage;
use std::alloc::AllocError;

impl Store<'_, '_, '_> {
    // Empties the tables, to read a file. There is no engine where the words of the versions have the wrong lengths.
    pub fn load(&mut self)
        ensures { Starts self.old self.new }
    {
        let room = self.tables.reset();
        self.stage = Stage::Loading.if_room(room);
    }

    // Reads the next bytes of the file. Nothing happens where none is being read, nor behind a flaw.
    pub fn read_on(&mut self, reader: &mut Reader, piece: &[u8]) -> Result<(), AllocError>
        ensures reads { ReadOn piece.now reader.old reader.new self.old self.new result }
        ensures else_nothing { Idles reader.old reader.new self.old self.new result }
    {
        if !self.stage.is_loading() {
            return Ok(());
        }
        if reader.flaw().is_some() {
            return Ok(());
        }
        reader.take(piece)?;
        let found = self.tables.replay(reader.left());
        reader.note(found);
        Ok(())
    }

    // The file ends here. Where it has no flaw the engine is ready, and the answer is how many bytes its whole records
    // have; what follows is cut short. Else there is no engine.
    pub fn open(&mut self, reader: &Reader) -> Result<u64, OpenError>
        ensures opens { Opens reader.now self.old self.new result }
        ensures cut { OpensCut reader.now self.old self.new }
        ensures fine { SmallFine }
        ensures not_loading { NotOpened self.old self.new result }
        ensures promises { Promising self.new }
    {
        if !self.stage.is_loading() {
            return Err(OpenError::NotLoading);
        }
        if let Some(flaw) = reader.flaw() {
            self.tables.reset();
            self.stage = Stage::Unreadable;
            return Err(OpenError::Bad(flaw));
        }
        self.tables.settle();
        self.stage = Stage::Ready;
        Ok(reader.at())
    }
}
