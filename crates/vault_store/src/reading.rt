ghost use Rattle.std.specs.Prelude.{◌≡◌, ◌≤◌, ℕ, List, [], Some, None, Ok, length, IfOk, IfErr};
ghost use Rattle.std.specs.Option.{option_copied};
ghost use Rattle.std.specs.Result.{result_unwrap_or};
ghost use Rattle.outside.specs.Calls.{Told};
ghost use Rattle.outside.specs.Images.{disk_in};
ghost use Rattle.outside.specs.Views.{EntropyView, folder_in};
ghost use Rattle.tree_loading.specs.Format.{sealing_of};
ghost use Rattle.tree_model.specs.Asked.{CanAsk, count_limit, plain_request, read as read_request};
ghost use Rattle.tree_model.specs.declared.refusal.Refusal.TheVariants as refusals;
ghost use Rattle.tree_model.specs.declared.reply.Reply.TheVariants as replies;
ghost use Rattle.tree_model.specs.Step.{IsReading};
ghost use Rattle.live_tree.specs.Held.{node_of};
ghost use Rattle.vault_store.specs.Open.{IsResting, running, view_of};
ghost use Rattle.vault_store.specs.Reading.{HasContents, IsHostOf, IsUnsynced, read_fault};
ghost use Rattle.vault_store.specs.Outcome.{HasAnswered};
ghost use Rattle.vault_store.specs.Quiet.{IsStill};

use crate::answering::Vault;
use crate::sizes::have_sizes;
use clear_tree::What;
use content_reader::{ContentReader, ReadErr, SealedFile, Slice};
use file_chunks::clear_len;
use live_tree::LiveTree;
use node_changes::VaultTree;
use outside::{Folder, Reads};
use std::alloc::{AllocError, Global};
use tree_answers::{list, look, open_node, stat_of, walk};
use tree_model::{Refusal, Reply, Request};
use vault_keys::VaultKeys;

impl<D: Folder> Vault<D> {
    /// The reply to a request that changes nothing and is no sync. Only `Walk` and `List` take memory.
    pub(crate) fn look_up(&mut self, request: &Request<'_>, buffer: &mut [u8]) -> Reply
        requires form { CanAsk request.now (length buffer.old) }
        requires reads { IsReading (plain_request request.now) }
        requires rest { IsResting D.Reads self.old }
        requires unsynced { IsUnsynced (plain_request request.now) }
        ensures outcome { (second : ℕ) (source : EntropyView) → HasAnswered D.Reads self.old self.new
            source source (plain_request request.now) second (Ok result) buffer.old buffer.new }
        ensures rest { IsResting D.Reads self.new }
        ensures tree { self.new.tree ≡ self.old.tree }
        ensures faults { D.faults self.old.folder ≤ D.faults self.new.folder }
    {
        look_up(
            self.alloc,
            &mut self.back,
            &self.tree,
            &mut self.reader,
            request,
            buffer,
        )
    }
}

/// The reply to a request that changes nothing and is no sync, from a tree in memory and the sealed files of a folder. Only `Walk` and `List` take memory.
pub(crate) fn look_up<R: Reads>(
    alloc: Global,
    folder: &mut R,
    tree: &VaultTree,
    reader: &mut ContentReader,
    request: &Request<'_>,
    buffer: &mut [u8],
) -> Reply
    requires form { CanAsk request.now (length buffer.old) }
    requires reads { IsReading (plain_request request.now) }
    requires unsynced { IsUnsynced (plain_request request.now) }
    requires contents { Told (disk_in (R.log folder.old)) (HasContents (sealing_of tree.now.keys) tree.now.live) }
    ensures still { (entries second : ℕ) (source : EntropyView) → IsStill (view_of tree.now [] entries None) (view_of tree.now [] entries None)
        (folder_in R.Reads folder.old) (folder_in R.Reads folder.new)
        source source (plain_request request.now) second result buffer.old buffer.new }
    ensures changes { R.changes folder.new ≡ R.changes folder.old }
{
    have_sizes(tree.keys());
    let live = tree.live();
    match request {
        Request::Look { node } => look(live, *node),
        Request::Walk { node, names } => or_lacks_memory(walk(alloc, live, *node, names)),
        Request::OpenNode { node, mode } => open_node(live, *node, *mode),
        Request::Read { node, at, count } => {
            let slice = Slice {
                at: *at,
                count: *count,
            };
            read(folder, tree.keys(), live, reader, *node, slice, buffer)
        }
        Request::List { node, after, count } => {
            or_lacks_memory(list(alloc, live, *node, bytes_of(*after), *count, buffer))
        }
        Request::StatOf { node } => stat_of(live, *node, buffer),
        Request::Sync { .. }
        | Request::Write { .. }
        | Request::Create { .. }
        | Request::Remove { .. }
        | Request::Change { .. } => { unreachable!() }
    }
}

// Reads a slice of a node into the front of `buffer`. It takes no memory.
fn read<R: Reads>(
    folder: &mut R,
    keys: &VaultKeys,
    tree: &LiveTree,
    reader: &mut ContentReader,
    node: u64,
    slice: Slice,
    buffer: &mut [u8],
) -> Reply
    requires few { slice.count ≤ count_limit }
    requires room { slice.count ≤ length buffer.old }
    requires contents { Told (disk_in (R.log folder.old)) (HasContents (sealing_of keys.now) tree.now) }
    ensures still { (claims : List (List ℕ × ℕ)) (entries second : ℕ) (source : EntropyView) → IsStill (running keys.now tree.now claims entries) (running keys.now tree.now claims entries)
        (folder_in R.Reads folder.old) (folder_in R.Reads folder.new)
        source source (read_request node slice.at slice.count) second result buffer.old buffer.new }
    ensures changes { R.changes folder.new ≡ R.changes folder.old }
{
    let host = match sealed_file(tree, node) {
        Ok(host) => host,
        Err(refusal) => return Reply::Refused(refusal),
    };
    match reader.read(folder, keys, &host, slice, buffer) {
        Ok(count) => Reply::Count(count),
        Err(ReadErr::Damaged) => Reply::Refused(Refusal::Damaged),
        Err(ReadErr::Device) => Reply::Refused(Refusal::DeviceFault),
    }
}

// The host file of a node, or what refuses that it is read before that file is looked at.
fn sealed_file(tree: &LiveTree, number: u64) -> Result<SealedFile, Refusal>
    ensures file { IfOk result (λ host. IsHostOf tree.now number host) }
    ensures refused { IfErr result (λ refusal. read_fault (node_of tree.now number) ≡ Some refusal) }
{
    // for its clause: what has a size has a host file
    let _count = tree.len();
    let Some(node) = tree.node(number) else {
        return Err(Refusal::Removed);
    };
    let size = match node.what() {
        What::Dir { .. } => return Err(Refusal::IsADirectory),
        What::Bad { .. } => return Err(Refusal::Damaged),
        What::File { size } | What::Link { size } => *size,
    };
    if clear_len(size).is_none() {
        return Err(Refusal::Damaged);
    }
    match tree.path(number) {
        Some(path) => Ok(SealedFile { path, size }),
        None => unreachable!(),
    }
}

// A reply, or that there was no memory for it.
fn or_lacks_memory(reply: Result<Reply, AllocError>) -> Reply
    ensures { result ≡ result_unwrap_or reply (replies.Refused refusals.OutOfMemory) }
{
    match reply {
        Ok(reply) => reply,
        Err(_) => Reply::Refused(Refusal::OutOfMemory),
    }
}

// The bytes of a name, if there is one.
fn bytes_of(name: Option<&str>) -> Option<&[u8]>
    ensures { option_copied result ≡ option_copied name.entry }
{
    match name {
        Some(name) => Some(name.as_bytes()),
        None => None,
    }
}
