// Why there is no engine once a file was read.
use journal::Flaw;

#[derive(Clone, Copy, PartialEq, Eq, Debug)]
pub enum OpenError {
    // the file can't be read
    Bad(Flaw),
    // no file was being read, and all is as it was
    NotLoading,
}
