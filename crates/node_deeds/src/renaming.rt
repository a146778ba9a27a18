ghost use Rattle.std.specs.Prelude.{◌≡◌, ◌<◌, ◌^◌, true, length, IfOk, IsTrue};
ghost use Rattle.vault_path.specs.Parts.{is_part};
ghost use Rattle.deeds.specs.Grammar.{IsBatch};
ghost use Rattle.deeds.specs.Plain.{plains};
ghost use Rattle.clear_tree.specs.Built.{kept_what};
ghost use Rattle.tree_deed_laws.specs.Deeds as changes;
ghost use Rattle.tree_deed_laws.specs.Deeds.{rename_node_at, rename_file_at};
ghost use Rattle.node_deeds.specs.Made.{IsHostPlace, place_at};

use crate::place::{Place, entry_of, inner_of};
use clear_tree::What;
use deeds::Deed;
use std::alloc::{AllocError, Global};
use vault_layout::{CONTENTS_FILE, DIRECTORY_FILE, LINK_FILE, NAME_FILE};

/// The deeds that bring the node at a place to another one of the same directory. `text` is the text of its new name, which a
/// long place keeps. A Bad node has none. They are a batch. Fails only if memory runs out.
pub fn rename_deeds(
    alloc: Global,
    old: &Place,
    new: &Place,
    text: &[u8],
    what: &What,
) -> Result<Vec<Deed>, AllocError>
    requires old { IsHostPlace (place_at old.now) }
    requires new { IsHostPlace (place_at new.now) }
    requires same { (place_at new.now).folder ≡ (place_at old.now).folder }
    requires text { length text.now < 2 ^ 32 }
    ensures deeds { IfOk result (λ deeds. plains deeds.items
        ≡ changes.rename_deeds (place_at old.now) (place_at new.now) text.now (kept_what what.now)) }
    ensures batch { IfOk result (λ deeds. IsBatch (plains deeds.items)) }
{
    renaming(alloc, old, new, text, what)
}

// The same, whatever the length.
fn renaming(
    alloc: Global,
    old: &Place,
    new: &Place,
    text: &[u8],
    what: &What,
) -> Result<Vec<Deed>, AllocError>
    requires old { IsHostPlace (place_at old.now) }
    requires new { IsHostPlace (place_at new.now) }
    requires same { (place_at new.now).folder ≡ (place_at old.now).folder }
    ensures { IfOk result (λ deeds. plains deeds.items
        ≡ changes.rename_deeds (place_at old.now) (place_at new.now) text.now (kept_what what.now)) }
{
    match what {
        What::File { .. } => file_renaming(alloc, old, new, text),
        What::Link { .. } => node_renaming(alloc, old, new, text, LINK_FILE),
        What::Dir { .. } => node_renaming(alloc, old, new, text, DIRECTORY_FILE),
        What::Bad { .. } => Ok(Vec::new(alloc)),
    }
}

// A file, from either place to either.
fn file_renaming(
    alloc: Global,
    old: &Place,
    new: &Place,
    text: &[u8],
) -> Result<Vec<Deed>, AllocError>
    requires old { IsHostPlace (place_at old.now) }
    requires new { IsHostPlace (place_at new.now) }
    requires same { (place_at new.now).folder ≡ (place_at old.now).folder }
    ensures { IfOk result (λ deeds. plains deeds.items
        ≡ rename_file_at (place_at old.now).long (place_at new.now).long (place_at old.now).folder (place_at old.now).entry (place_at new.now).entry text.now) }
{
    match (old.long, new.long) {
        (false, false) => Ok(vec![in alloc; Deed::Rename(entry_of(old), entry_of(new))]?),
        (false, true) => {
            let name = Vec::from_slice(alloc, text)?;
            let deeds = vec![in alloc;
                Deed::MakeDir(entry_of(new)),
                Deed::Put(inner_of(new, NAME_FILE), name),
                Deed::Rename(entry_of(old), inner_of(new, CONTENTS_FILE)),
            ]?;
            Ok(deeds)
        }
        (true, false) => {
            let deeds = vec![in alloc;
                Deed::Rename(inner_of(old, CONTENTS_FILE), entry_of(new)),
                Deed::Remove(inner_of(old, NAME_FILE)),
                Deed::RemoveDir(entry_of(old)),
            ]?;
            Ok(deeds)
        }
        (true, true) => node_renaming(alloc, old, new, text, CONTENTS_FILE),
    }
}

// A node folder is made, the known file moves there, and the old folder goes.
fn node_renaming(
    alloc: Global,
    old: &Place,
    new: &Place,
    text: &[u8],
    known: &[u8],
) -> Result<Vec<Deed>, AllocError>
    requires old { IsHostPlace (place_at old.now) }
    requires new { IsHostPlace (place_at new.now) }
    requires same { (place_at new.now).folder ≡ (place_at old.now).folder }
    requires known { IsTrue (is_part known.now) }
    ensures { IfOk result (λ deeds. plains deeds.items
        ≡ rename_node_at (place_at old.now).long (place_at new.now).long (place_at old.now).folder (place_at old.now).entry (place_at new.now).entry text.now known.now) }
{
    if new.long {
        return node_to_long(alloc, old, new, text, known);
    }
    let make = Deed::MakeDir(entry_of(new));
    let rename = Deed::Rename(inner_of(old, known), inner_of(new, known));
    if !old.long {
        return Ok(vec![in alloc; make, rename, Deed::RemoveDir(entry_of(old))]?);
    }
    Ok(vec![in alloc;
        make,
        rename,
        Deed::Remove(inner_of(old, NAME_FILE)),
        Deed::RemoveDir(entry_of(old)),
    ]?)
}

// To a long place, whose folder keeps the new name's text.
fn node_to_long(
    alloc: Global,
    old: &Place,
    new: &Place,
    text: &[u8],
    known: &[u8],
) -> Result<Vec<Deed>, AllocError>
    requires old { IsHostPlace (place_at old.now) }
    requires new { IsHostPlace (place_at new.now) }
    requires same { (place_at new.now).folder ≡ (place_at old.now).folder }
    requires known { IsTrue (is_part known.now) }
    ensures { IfOk result (λ deeds. plains deeds.items
        ≡ rename_node_at (place_at old.now).long true (place_at old.now).folder (place_at old.now).entry (place_at new.now).entry text.now known.now) }
{
    let name = Vec::from_slice(alloc, text)?;
    let make = Deed::MakeDir(entry_of(new));
    let put = Deed::Put(inner_of(new, NAME_FILE), name);
    let rename = Deed::Rename(inner_of(old, known), inner_of(new, known));
    if !old.long {
        return Ok(vec![in alloc; make, put, rename, Deed::RemoveDir(entry_of(old))]?);
    }
    Ok(vec![in alloc;
        make,
        put,
        rename,
        Deed::Remove(inner_of(old, NAME_FILE)),
        Deed::RemoveDir(entry_of(old)),
    ]?)
}
