use std::fmt;
use std::fmt::{Display, Formatter};

/// Where clients are to connect.
#[derive(Drop)]
pub enum Address {
    /// The path of a Unix socket's file.
    Path(String),
    /// `HOST:PORT`, or `[ADDRESS]:PORT` of IPv6.
    Host(String),
}

impl Display for Address {
    fn fmt<W: fmt::Write>(&self, f: &mut Formatter<W>) -> fmt::Result {
        match self {
            Address::Path(path) => write!(f, "unix:{path}"),
            Address::Host(host) => write!(f, "{host}"),
        }
    }
}
