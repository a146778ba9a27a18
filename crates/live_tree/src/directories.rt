ghost use Rattle.std.specs.Prelude.{◌≡◌, ℕ, List, true, IfSome, IfNone, OnOk, OnErr, Some, None};
ghost use Rattle.std.specs.Option.{option_copied};
ghost use Rattle.clear_tree.specs.Kept.{IsBehind};
ghost use Rattle.live_tree.specs.Index.{number_at, has_names, IsSet, IsSame, IsGrown, IsClosed, IsNameless, IsNextName};

use std::alloc::{AllocError, Global};
use std::collections::BTreeMap;
use std::ops::Bound;
use vault_path::Text;

/// Of each directory the numbers of its nodes, by their names.
pub(crate) type Names = BTreeMap<u64, BTreeMap<Text, u64>>;

/// The number of a name in a directory.
pub(crate) fn number_at(names: &Names, parent: u64, name: &Text) -> Option<u64>
    ensures { result ≡ number_at names.now parent name.now }
{
    names.get(&parent)?.get(name).copied()
}

/// Gives a name of a directory a number.
pub(crate) fn put(names: &mut Names, parent: u64, name: Text, number: u64) -> Result<(), AllocError>
    requires { has_names names.old parent ≡ true }
    ensures set { OnOk result (IsSet names.old names.new parent name (Some number)) }
    ensures same { OnErr result (IsSame names.old names.new) }
{
    if let Some(inner) = names.get_mut(&parent) {
        inner.insert(name, number)?;
    }
    Ok(())
}

/// Takes a name of a directory away.
pub(crate) fn take(names: &mut Names, parent: u64, name: &Text)
    ensures { IsSet names.old names.new parent name.now None }
{
    if let Some(inner) = names.get_mut(&parent) {
        inner.remove(name);
    }
}

/// Makes room for the names of a node that has none, if it is a directory. Room that an earlier try left is that of this number.
pub(crate) fn open_directory(
    alloc: Global,
    names: &mut Names,
    number: u64,
    is_directory: bool,
) -> Result<(), AllocError>
    requires { IsNameless names.old number }
    ensures grown { IsGrown names.old names.new }
    ensures there { OnOk result (is_directory ≡ true → has_names names.new number ≡ true) }
{
    if is_directory {
        names.insert(number, BTreeMap::new(alloc))?;
    }
    Ok(())
}

/// Takes the room for the names of a directory away, which has none.
pub(crate) fn close_directory(names: &mut Names, number: u64)
    requires { IsNameless names.old number }
    ensures { IsClosed names.old names.new number }
{
    names.remove(&number);
}

/// The number of the first name of a directory after another, or of its first name.
pub(crate) fn next_name(names: &Names, parent: u64, last: Option<&Text>) -> Option<u64>
    ensures next { IfSome result (λ number. IsNextName names.now parent (option_copied last.entry) number) }
    ensures none { IfNone result ((name : List ℕ) (number : ℕ) → number_at names.now parent name ≡ Some number → IsBehind (option_copied last.entry) name → ⊥) }
{
    let inner = names.get(&parent)?;
    let start = match last {
        None => Bound::Unbounded,
        Some(name) => Bound::Excluded(name),
    };
    let (_, number) = inner.range((start, Bound::Unbounded)).next()?;
    Some(*number)
}
