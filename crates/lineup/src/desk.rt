// Runs of Serials as they answer a conversation.
use conversation::Service;
use model::{Reply, Request};
use serial_runs::Runs;

#[derive(Drop)]
pub struct Desk<'d, 'r, 't, 's, 'a> {
    runs: &'d mut Runs<'r, 't, 's, 'a>,
}

impl<'d, 'r, 't, 's, 'a> Desk<'d, 'r, 't, 's, 'a> {
    pub fn new(runs: &'d mut Runs<'r, 't, 's, 'a>) -> Desk<'d, 'r, 't, 's, 'a> {
        Desk { runs }
    }
}

impl Service for Desk<'_, '_, '_, '_, '_> {
    type Trouble = anyhow::Error;

    fn answer(&mut self, request: Request) -> anyhow::Result<Reply> {
        Ok(self.runs.answer(request))
    }

    // Nothing is kept outside the memory.
    fn settle(&mut self) -> anyhow::Result<()> {
        Ok(())
    }
}
