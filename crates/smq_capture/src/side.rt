//! The ends of a connection.
ghost use Rattle.std.specs.Prelude.{◌≢◌};

use std::fmt;

/// An end of a connection: the client (ESME) or the centre (SMSC).
#[derive(Clone, Copy, Debug, PartialEq, Eq)]
pub enum Side {
    Client,
    Centre,
}

impl Side {
    /// The other end.
    pub fn other(self) -> Side
        ensures { result ≢ self }
    {
        match self {
            Side::Client => Side::Centre,
            Side::Centre => Side::Client,
        }
    }
}

impl fmt::Display for Side {
    fn fmt<W: fmt::Write>(&self, f: &mut fmt::Formatter<W>) -> fmt::Result {
        match *self {
            Side::Client => write!(f, "client"),
            Side::Centre => write!(f, "centre"),
        }
    }
}
