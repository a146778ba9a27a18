//! One sync, asked of a server as one of its clients.

ghost use Rattle.std.specs.Prelude.{◌≡◌, ◌⊎◌, IfOk};
ghost use Rattle.outside.specs.Views.{link_in};
ghost use Rattle.vault_top.specs.Span.{sink_in};
ghost use Rattle.vaultd.specs.Starting.{IsEndOf, IsSyncedOver, IsSyncing, sync_status, sync_text};
ghost use Rattle.vaultd.specs.declared.syncing.SyncEnd.TheVariants.{Failed};

use crate::host::Host;
use crate::starting::Started;
use host_links::{SocketLink, address_named};
use host_sockets::Wire;
use log::{Log, error};
use outside::{Link, Sink};
use std::alloc::AllocError;
use std::net::{Net, TcpStream};
use sync_client::{SyncErr, sync_root};
use vault_top::report_text;

// The status if the report's line wasn't taken whole.
const CUT_STATUS: u8 = 4;

/// What became of a sync.
#[derive(Clone, Copy, Debug, PartialEq, Eq)]
pub(crate) enum SyncEnd {
    /// All that was written is on the server's disk.
    Done,
    /// The server refused it.
    Refused,
    /// The server couldn't be reached, or didn't answer.
    Failed,
}

fn end_of(answer: Result<(), SyncErr>) -> SyncEnd
    ensures { IsEndOf answer result }
{
    match answer {
        Ok(()) => SyncEnd::Done,
        Err(SyncErr::Refused) => SyncEnd::Refused,
        Err(SyncErr::NotNinep | SyncErr::Ended | SyncErr::Fault) => SyncEnd::Failed,
    }
}

impl SyncEnd {
    /// The line that is reported.
    fn line(self) -> &'static str
        ensures { result.now ≡ sync_text self }
    {
        match self {
            SyncEnd::Done => "synced\n",
            SyncEnd::Refused => "sync refused\n",
            SyncEnd::Failed => "device fault: server\n",
        }
    }

    /// The exit status.
    fn status(self) -> u8
        ensures { result ≡ sync_status self }
    {
        match self {
            SyncEnd::Done => 0,
            SyncEnd::Refused | SyncEnd::Failed => 4,
        }
    }
}

// Tells why a sync isn't done.
fn tell_error<L: Log>(log: &L, answer: &Result<(), SyncErr>) {
    if let Err(error) = answer {
        error!(log; target: "vaultd", "{error}");
    }
}

// Asks the server at a link for one sync.
fn asked_over<R, L: Log>(host: Host<'_, R, L>, mut link: SocketLink) -> SyncEnd
    ensures { IsSyncedOver (link_in ⟦<SocketLink<'static> as Link>⟧) result }
{
    let answer = sync_root(&mut link);
    tell_error(host.log, &answer);
    end_of(answer)
}

// Asks the server at an address for one sync.
fn ask_sync<R: AllocGlobal + Net<Stream = TcpStream>, L: Log>(
    host: Host<'_, R, L>,
    address: &str,
) -> Result<SyncEnd, AllocError>
    ensures { IfOk result (λ end. IsSyncedOver (link_in ⟦<SocketLink<'static> as Link>⟧) end ⊎ (end ≡ Failed)) }
{
    let address = address_named(host.rt.alloc(), address)?;
    match Wire::connect(host.rt, &address) {
        Ok(wire) => Ok(asked_over(host, SocketLink::over(wire))),
        Err(error) => {
            error!(host.log; target: "vaultd", "connect to {address}: {error}");
            Ok(SyncEnd::Failed)
        }
    }
}

/// Asks the server at an address for one sync, and reports what became of it.
pub(crate) fn sync_at<R: AllocGlobal + Net<Stream = TcpStream>, L: Log, O: Sink>(
    host: Host<'_, R, L>,
    address: &str,
    out: &mut O,
) -> Result<Started, AllocError>
    ensures { IfOk result (IsSyncing (link_in ⟦<SocketLink<'static> as Link>⟧) (sink_in O.Sink)) }
{
    let end = ask_sync(host, address)?;
    Ok(Started {
        status: report_text(out, end.line().as_bytes(), end.status(), CUT_STATUS),
        removed: None,
    })
}
