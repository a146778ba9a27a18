ghost use Rattle.std.specs.Prelude.{◌≡◌, Some, IsTrue, IfErr, OnOk, OnErr};
ghost use Rattle.std.specs.List.Sorted.{IsStrictlySortedBy};
ghost use Rattle.std.specs.Map.{keys_of};
ghost use Rattle.std.specs.Ordering.{nat_cmp};
ghost use Rattle.std.specs.BTreeMap.{get, insert_entry};
ghost use Rattle.vault_path.specs.Parts.{is_part};
ghost use Rattle.tree_model.specs.Names.{IsClearName};
ghost use Rattle.live_tree.specs.Held.{HeldNode};
ghost use Rattle.clear_tree.specs.Built.{IsFile};
ghost use Rattle.live_tree.specs.Changes.{edited_nodes, changed_node, renamed_node, sized_node, dated_node};

use crate::node::LiveNode;
use std::collections::BTreeMap;
use vault_path::Text;

/// The nodes by number.
pub(crate) type Nodes = BTreeMap<u64, LiveNode>;

/// Puts a node under a number, or gives it back if memory runs out.
pub(crate) fn insert_node(nodes: &mut Nodes, number: u64, node: LiveNode) -> Result<(), LiveNode>
    ensures inserted { OnOk result (nodes.new.entries ≡ insert_entry nat_cmp nodes.old.entries number node) }
    ensures ordered { IsStrictlySortedBy nat_cmp (keys_of nodes.new.entries) }
    ensures refused { IfErr result (λ back. back ≡ node) }
    ensures same { OnErr result (nodes.new.entries ≡ nodes.old.entries) }
{
    match nodes.insert(number, node) {
        Ok(_) => Ok(()),
        Err(refused) => Err(refused.value.1),
    }
}

/// Counts a change of a node at a second.
pub(crate) fn change_node(nodes: &mut Nodes, number: u64, now: u32)
    ensures { nodes.new.entries ≡ edited_nodes nodes.old.entries number (changed_node now) }
{
    if let Some(node) = nodes.get_mut(&number) {
        node.change(now);
    }
}

/// Says of a file how many bytes its host file has.
pub(crate) fn resize_node(nodes: &mut Nodes, number: u64, size: u64)
    requires { (node : HeldNode) → get nat_cmp nodes.old number ≡ Some node → IsFile node.kept.what }
    ensures { nodes.new.entries ≡ edited_nodes nodes.old.entries number (sized_node size) }
{
    if let Some(node) = nodes.get_mut(&number) {
        node.resize(size);
    }
}

/// Sets a node's mtime.
pub(crate) fn date_node(nodes: &mut Nodes, number: u64, modified: u32)
    ensures { nodes.new.entries ≡ edited_nodes nodes.old.entries number (dated_node modified) }
{
    if let Some(node) = nodes.get_mut(&number) {
        node.date(modified);
    }
}

/// Gives a node another name and entry.
pub(crate) fn rename_node(nodes: &mut Nodes, number: u64, name: Text, entry: Text, long: bool)
    requires clear { IsClearName name }
    requires entry { IsTrue (is_part entry) }
    ensures { nodes.new.entries ≡ edited_nodes nodes.old.entries number (renamed_node name entry long) }
{
    if let Some(node) = nodes.get_mut(&number) {
        node.rename(name, entry, long);
    }
}
