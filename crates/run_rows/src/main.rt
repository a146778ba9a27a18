//! Runs of the whole program over memory: its folder, clients, random source, secret and report.
//!
//! `data/parts.txt` has a line for each entry of a part of a folder: the part's name, `dir`, `text`, `bytes`, `zeros` or `kept`, the path, and the
//! text, the bytes in hexadecimal digits or their number; what is kept is the file of this path in the vault of the part's name in
//! `data/trees`. Bytes are in hexadecimal digits, and `55*3` stands for `555555`.
//!
//! # Runs by themselves
//!
//! `data/runs.txt` has a block for each run. It begins with `run` and what it shows; then come
//! the folder's parts (`-` for none, `=` for the folder that the run before has left), the words, the secret's lines, the workers with their
//! clients' messages (`>` to the program, `<` to the client), which calls fail, and at the end the status, the report's lines and the parts of which
//! the folder then consists, if they are others, or `changed`, if random bytes are in it: a run over it then shows what it holds. `left` is how many bytes
//! of the secret aren't taken, and `calls` how many calls the folder has. With `each-call` a run is repeated with each call of the folder failing, before
//! it does anything and after a part of it. Every other run is repeated with one byte at a time.
//!
//! `data/tree-parts.txt` and `data/tree-runs.txt` are such tables for the vaults of `data/trees`, which another implementation made: each node is
//! walked to, stat'ed and opened, each directory listed and each file read, at its ends and about its chunks' borders. The wanted replies are
//! those of an independent model of the protocol to the rows of the vault and to contents that another implementation opened.
//!
//! # Clients whose messages are in one order, and links that fail
//!
//! `data/orders.txt` and `data/links.txt` begin with the messages by which a client looks at a vault (`look`) and what it is sent in each state of the
//! vault (`state`); the states are numbered from 0. Then comes a block for each run over a vault of zero keys that has nothing but its root. It begins with
//! `run` and what it shows. `>` begins a message, with its client's number; `<` is its reply, `=` the number of the state that a vault has which
//! is closed after it, if that is another than before, and `stable` says that no stop undoes it, nor what came before it, once it is answered, and with `opens N`
//! from the flush of the journal's gate on, which the message's Nth changing call opens. A message is sent once the ones before it were answered. `fails N`
//! says that the folder's Nth changing call from the next message on fails, `stops` that the run is stopped at each call of the folder, and `link-calls` that it
//! is repeated with each read and each write of the link failing, and `folder-calls` that it is with each call of the folder failing, once before
//! it does anything and once after a part of it.
//!
//! After a commit that failed the vault has the state before `fails` or one that the messages after it leave. A stop leaves the last stable state or a later
//! one, up to the next stable one. If a call of the link failed, the replies to the messages that were read whole were sent, the last one in part if a write
//! failed, and the vault has the state after them. If a call of the folder failed, the client sends the message once more: then its reply is the wanted one, and
//! the vault has the state after all of them; or a commit failed, nothing more is done, and the vault has the last stable state or a later one, up to that of
//! the message.
//!
//! It is printed how many runs there were of each kind, and each that differs. The status is 1 if something differs or can't be read.
#![tactic(auto)]

mod checking;
mod clients;
mod failing;
mod folder_calls;
mod folders;
mod link;
mod link_calls;
mod listening;
mod look;
mod orders;
mod outcome;
mod plan;
mod replies;
mod row;
mod running;
mod runs;
mod serving;
mod stops;
mod table;
mod tally;
mod waiting;

use clients::check_clients;
use runs::check_runs;
use std::process::ExitCode;
use std::{fs, io};
use waiting::print_waiting;

fn main(rt: HostRuntime) -> io::Result<ExitCode> {
    let parts = fs::read_to_string(&rt, "parts.txt")?;
    let parts = parts.as_str();
    let mut passed = check_runs(&rt, rt.alloc(), parts, "runs.txt")?;
    let tree_parts = fs::read_to_string(&rt, "tree-parts.txt")?;
    passed &= check_runs(&rt, rt.alloc(), tree_parts.as_str(), "tree-runs.txt")?;
    passed &= print_waiting(&rt, rt.alloc(), parts)?;
    passed &= check_clients(&rt, rt.alloc(), parts)?;
    Ok(if passed {
        ExitCode::SUCCESS
    } else {
        ExitCode::FAILURE
    })
}
