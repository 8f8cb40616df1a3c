// What ends the commands before the input does.
use std::io;
use trial::BadCommand;

#[derive(Clone, Copy)]
pub enum Failure {
    BadCommand(BadCommand),
    Unreadable,
    Unwritable(io::Error),
}

impl From<BadCommand> for Failure {
    fn from(bad: BadCommand) -> Failure {
        Failure::BadCommand(bad)
    }
}

// An error of printing.
impl From<io::Error> for Failure {
    fn from(why: io::Error) -> Failure {
        Failure::Unwritable(why)
    }
}
