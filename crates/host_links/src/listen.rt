ghost use Rattle.std.specs.Prelude.{◌≡◌, IfOk, IsOk, IsSome, None};
ghost use Rattle.host_links.specs.Behind.{link_to_come};

use crate::link::HostLink;
use crate::traffic::{tell_back, tell_next};
use log::Log;
use outside::{Failed, Listener};
use std::io::Input;

/// Gives the link over the standard streams once, and then no more. It never fails. That the client comes and goes is told to a logger.
#[derive(Drop)]
pub struct HostListen<R: Input, L> {
    link: Option<HostLink<R>>,
    log: L,
}

impl<R: Input + Print + Drop, L: Log> HostListen<R, L> {
    /// A listener whose one link is over the runtime's standard streams.
    pub fn new(rt: R, log: L) -> HostListen<R, L>
        ensures { IsSome (link_to_come result) }
    {
        HostListen {
            link: Some(HostLink::new(rt)),
            log,
        }
    }
}

impl<R: Input + Print + Drop, L: Log> Listener for HostListen<R, L> {
    type Conn = HostLink<R>;

    ghost to_come = { λ _. None };

    ghost given_back = { λ _. None };

    ghost faults = { λ _. 0 };

    fn next(&mut self) -> Result<Option<HostLink<R>>, Failed>
        ensures link { IfOk result (λ link. link ≡ link_to_come self.old) }
        ensures once { link_to_come self.new ≡ None }
        ensures never_fails { IsOk result }
    {
        let link = self.link.take();
        if let Some(link) = &link {
            tell_next(&self.log, link.traffic());
        }
        Ok(link)
    }

    fn back(&mut self, link: HostLink<R>)
        ensures { link_to_come self.new ≡ link_to_come self.old }
    {
        tell_back(&self.log, link.traffic());
    }
}
