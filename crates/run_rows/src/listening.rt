// The links and the listeners of a run. They are of one type whoever the clients are: for each other type the whole program would be
// instantiated anew.

ghost use Rattle.std.specs.Prelude.{None};

use crate::link::{OrderedClient, OrderedLink};
use outside::{Failed, Link, Listener};
use outside_mem::{MemLink, MemListener};

// A link to a client that sends what it has, or waits for its messages' turns.
#[derive(Drop)]
enum AnyLink<'a> {
    Listed(MemLink),
    Ordered(OrderedLink<'a>),
}

/// A link of a run.
#[derive(Drop)]
pub(crate) struct RunLink<'a> {
    link: AnyLink<'a>,
    read_faults: u64,
    write_faults: u64,
}

// Which clients a worker has.
#[derive(Drop)]
enum Clients<'a> {
    Listed(MemListener),
    Ordered(OrderedClient<'a>),
}

/// A listener of a run.
#[derive(Drop)]
pub(crate) struct RunListener<'a> {
    clients: Clients<'a>,
    faults: u64,
}

impl<'a> RunLink<'a> {
    fn over(link: AnyLink<'a>) -> RunLink<'a> {
        RunLink {
            link,
            read_faults: 0,
            write_faults: 0,
        }
    }
}

impl<'a> Link for RunLink<'a> {
    ghost left = { λ _. None };

    ghost taken = { λ _. None };

    ghost read_faults = { λ link. link.read_faults };

    ghost write_faults = { λ link. link.write_faults };

    fn read(&mut self, out: &mut [u8]) -> Result<usize, Failed> {
        let count = match &mut self.link {
            AnyLink::Listed(link) => link.read(out),
            AnyLink::Ordered(link) => link.read(out),
        };
        if count.is_err() {
            self.read_faults = self.read_faults.saturating_add(1);
        }
        count
    }

    fn write(&mut self, piece: &[u8]) -> Result<usize, Failed> {
        let count = match &mut self.link {
            AnyLink::Listed(link) => link.write(piece),
            AnyLink::Ordered(link) => link.write(piece),
        };
        if count.is_err() {
            self.write_faults = self.write_faults.saturating_add(1);
        }
        count
    }
}

impl<'a> RunListener<'a> {
    /// The clients of a listener in memory.
    pub(crate) fn listed(listener: MemListener) -> RunListener<'a> {
        RunListener {
            clients: Clients::Listed(listener),
            faults: 0,
        }
    }

    /// One client whose messages are in an order.
    pub(crate) fn ordered(link: OrderedLink<'a>) -> RunListener<'a> {
        RunListener {
            clients: Clients::Ordered(OrderedClient::new(link)),
            faults: 0,
        }
    }

    /// Takes out the link in memory that was given back last.
    pub(crate) fn take_back(&mut self) -> Option<MemLink> {
        match &mut self.clients {
            Clients::Listed(listener) => listener.take_back(),
            Clients::Ordered(_) => None,
        }
    }

    /// What the client was sent whose messages are in an order, if its link was given back.
    pub(crate) fn taken(&self) -> Option<&[u8]> {
        match &self.clients {
            Clients::Listed(_) => None,
            Clients::Ordered(client) => client.taken(),
        }
    }
}

impl<'a> Listener for RunListener<'a> {
    type Conn = RunLink<'a>;

    ghost to_come = { λ _. None };

    ghost given_back = { λ _. None };

    ghost faults = { λ listener. listener.faults };

    fn next(&mut self) -> Result<Option<RunLink<'a>>, Failed> {
        match &mut self.clients {
            Clients::Ordered(client) => {
                match client.next() {
                    Some(link) => Ok(Some(RunLink::over(AnyLink::Ordered(link)))),
                    None => Ok(None),
                }
            }
            Clients::Listed(listener) => {
                match listener.next() {
                    Ok(Some(link)) => Ok(Some(RunLink::over(AnyLink::Listed(link)))),
                    Ok(None) => Ok(None),
                    Err(failed) => {
                        self.faults = self.faults.saturating_add(1);
                        Err(failed)
                    }
                }
            }
        }
    }

    fn back(&mut self, link: RunLink<'a>) {
        match link.link {
            AnyLink::Listed(link) => {
                if let Clients::Listed(listener) = &mut self.clients {
                    listener.back(link);
                }
            }
            AnyLink::Ordered(link) => {
                if let Clients::Ordered(client) = &mut self.clients {
                    client.back(link);
                }
            }
        }
    }
}
