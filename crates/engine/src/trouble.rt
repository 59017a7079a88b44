// What ends the program early.
use anyhow::anyhow;
use std::error::Error;
use std::fmt::Display;
use std::{fmt, io};

// What could not be done with the file.
#[derive(Clone, Copy, PartialEq, Eq, Debug)]
pub enum What {
    Open,
    Read,
    Cut,
    Write,
    Sync,
    SyncName,
}

impl Display for What {
    fn fmt<W: fmt::Write>(&self, f: &mut fmt::Formatter<W>) -> fmt::Result {
        f.write_str(match self {
            What::Open => "can't be opened",
            What::Read => "can't be read",
            What::Cut => "can't be cut",
            What::Write => "can't be written",
            What::Sync => "can't be synced",
            What::SyncName => "is in a folder that can't be synced",
        })
    }
}

#[derive(Drop)]
pub enum Trouble {
    // with the file
    File { what: What, why: io::Error },
    // with anything else
    Other(anyhow::Error),
}

impl<E: Error> From<E> for Trouble {
    fn from(error: E) -> Trouble {
        Trouble::Other(anyhow!(error))
    }
}

impl Trouble {
    pub fn file(what: What, why: io::Error) -> Trouble {
        Trouble::File { what, why }
    }
}
