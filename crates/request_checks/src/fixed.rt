ghost use Rattle.std.specs.Prelude.{◌≡◌};
ghost use Rattle.std.specs.Option.{option_copied};
ghost use Rattle.tree_model.specs.Rows.{owner, qid_of};
ghost use Rattle.tree_model.specs.Asked.{plain_change};
ghost use Rattle.tree_model.specs.Step.{is_other, is_other_qid, is_other_text, touches_fixed};
ghost use Rattle.request_checks.specs.Deciding.{bare_row};

use clear_tree::What;
use live_tree::LiveNode;
use tree_answers::{OWNER, mode};
use tree_model::{Qid, StatChange};

/// Whether a field other than name, length and mtime is touched and isn't as it is.
pub(crate) fn touches_fixed(number: u64, node: &LiveNode, change: &StatChange<'_>) -> bool
    ensures { result ≡ touches_fixed (bare_row number node.now) (plain_change change.now) }
{
    is_other_kind(change.kind)
        || is_other(change.device, 0)
        || is_other_qid(change.qid, &qid(number, node))
        || is_other(change.mode, mode(node.what()))
        || is_other(change.accessed, node.modified())
        || is_other_owner(change.owner)
        || is_other_owner(change.group)
        || is_other_owner(change.modifier)
}

// Whether the kernel's type is touched and isn't 0.
fn is_other_kind(field: Option<u16>) -> bool
    ensures { result ≡ is_other field 0 }
{
    match field {
        Some(kind) => kind != 0,
        None => false,
    }
}

// Whether a field is touched and isn't as it is.
fn is_other(field: Option<u32>, is: u32) -> bool
    ensures { result ≡ is_other field is }
{
    match field {
        Some(value) => value != is,
        None => false,
    }
}

// Whether a text is touched and isn't the owner's name.
fn is_other_owner(field: Option<&str>) -> bool
    ensures { result ≡ is_other_text (option_copied field.entry) owner }
{
    match field {
        Some(text) => text != OWNER,
        None => false,
    }
}

// Whether the qid is touched and isn't as it is.
fn is_other_qid(field: Option<Qid>, is: &Qid) -> bool
    ensures { result ≡ is_other_qid field is.now }
{
    match field {
        Some(qid) => !(qid.kind == is.kind && qid.version == is.version && qid.path == is.path),
        None => false,
    }
}

// The qid of a node.
fn qid(number: u64, node: &LiveNode) -> Qid
    ensures { result ≡ qid_of (bare_row number node.now) }
{
    let kind = match node.what() {
        What::Dir { .. } => Qid::DIRECTORY,
        _ => Qid::FILE,
    };
    Qid {
        kind,
        version: node.version(),
        path: number,
    }
}
