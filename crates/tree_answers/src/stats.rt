ghost use Rattle.std.specs.Prelude.{◌≡◌, ◌<◌, ◌≤◌, ◌+◌, ◌^◌, length};
ghost use Rattle.std.specs.Str.{IsUtf8};
ghost use Rattle.tree_model.specs.Names.{name_limit};
ghost use Rattle.tree_model.specs.Wire.{plain_stat, stat_limit, IsTreeStat};
ghost use Rattle.tree_model.specs.Rows.{mode_of};
ghost use Rattle.tree_model.specs.Asked.{HasCount, IsReplyTo, KeepsRest, bytes_put, plain_reply, stat_of as stat_request};
ghost use Rattle.clear_tree.specs.Kept.{kind_of};
ghost use Rattle.clear_tree.specs.Built.{kept_what};
ghost use Rattle.tree_answers.specs.Answers.{IsOwn, IsSizedStepOf, answer_in, shown_length, stat_in};
ghost use Rattle.tree_answers.specs.declared.stats.TheConstants.{UNNAMED_STAT};

use crate::nodes::qid;
use clear_tree::What;
use file_chunks::clear_len;
use live_tree::{LiveNode, LiveTree};
use ninep_wire::write_stat;
use tree_model::{Refusal, Reply, Stat};

/// Who owns each node.
pub const OWNER: &str = "vault";

// The modes of a directory, of a file, and of what can only be read: DMDIR, and the permissions of stat(5).
const DIRECTORY_MODE: u32 = 0x8000_01ED;

const FILE_MODE: u32 = 0x1A4;

const READ_ONLY_MODE: u32 = 0x124;

// The bytes of a stat beside its node's name.
const UNNAMED_STAT: usize = 64;

/// The answer to a request for the stat of the node of a number, which is put into the front of `buffer`, of at least
/// 1,088 bytes. A file's length follows from the size of its host file, and its times are the second of its last change or
/// the mtime that it was given since.
pub fn stat_of(tree: &LiveTree, number: u64, buffer: &mut [u8]) -> Reply
    requires { stat_limit ≤ length buffer.old }
    ensures answer { IsSizedStepOf tree.now (stat_request number) (answer_in (stat_request number) (plain_reply result) buffer.new) }
    ensures form { IsReplyTo (stat_request number) (plain_reply result) (bytes_put (stat_request number) (plain_reply result) buffer.new) }
    ensures rest { KeepsRest (stat_request number) (plain_reply result) buffer.old buffer.new }
    ensures own { IsOwn (plain_reply result) }
    ensures count { HasCount result }
{
    let Some(node) = tree.node(number) else {
        return Reply::Refused(Refusal::Removed);
    };
    let stat = stat_at(number, node);
    Reply::Stat(write_stat(&stat, buffer) as u32)
}

/// What a client sees of a node.
pub(crate) fn stat_at<'a>(number: u64, node: &'a LiveNode) -> Stat<'a>
    ensures stat { plain_stat result ≡ stat_in number node.now }
    ensures form { IsTreeStat (stat_in number node.now) }
    ensures version { node.now.version < 2 ^ 32 }
{
    Stat {
        kind: 0,
        device: 0,
        qid: qid(number, node),
        mode: mode(node.what()),
        accessed: node.modified(),
        modified: node.modified(),
        length: len(node.what()),
        name: name(node),
        owner: OWNER,
        group: OWNER,
        modifier: OWNER,
    }
}

/// How many bytes the stat of a node has, of a name of at most 1,024 bytes.
pub(crate) fn stat_size(stat: &Stat<'_>) -> usize
    requires { length stat.now.name.now ≤ name_limit }
    ensures { result ≡ UNNAMED_STAT + length stat.now.name.now }
{
    UNNAMED_STAT + stat.name.len()
}

// The name of a node.
fn name(node: &LiveNode) -> &str
    ensures bytes { result.now ≡ node.now.kept.name }
    ensures text { IsUtf8 node.now.kept.name }
    ensures short { length node.now.kept.name ≤ name_limit }
{
    match str::from_utf8(node.name().as_bytes()) {
        Ok(name) => name,
        Err(_) => unreachable!(),
    }
}

/// The mode of a node: DMDIR of a directory, and the permissions (stat(5)).
pub fn mode(what: &What) -> u32
    ensures { result ≡ mode_of (kind_of (kept_what what.now)) }
{
    match what {
        What::Dir { .. } => DIRECTORY_MODE,
        What::File { .. } => FILE_MODE,
        What::Link { .. } | What::Bad { .. } => READ_ONLY_MODE,
    }
}

// The length that is shown of a node: of a file or a link of a bad size, of a directory and of a Bad node it is 0.
fn len(what: &What) -> u64
    ensures { result ≡ shown_length (kept_what what.now) }
{
    match what {
        What::File { size } | What::Link { size } => clear_len(*size).unwrap_or(0),
        _ => 0,
    }
}
