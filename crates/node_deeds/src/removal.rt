ghost use Rattle.std.specs.Prelude.{◌≡◌, IfOk, IsTrue};
ghost use Rattle.vault_path.specs.Parts.{is_part, is_path};
ghost use Rattle.deeds.specs.Grammar.{IsBatch};
ghost use Rattle.deeds.specs.Plain.{plains};
ghost use Rattle.clear_tree.specs.Places.{host_folder};
ghost use Rattle.clear_tree.specs.Built.{HasHostFolder, kept_what};
ghost use Rattle.tree_deed_laws.specs.Deeds as changes;
ghost use Rattle.tree_deed_laws.specs.Deeds.{remove_node_at, remove_dir_at};
ghost use Rattle.node_deeds.specs.Made.{IsHostPlace, place_at};

use crate::place::{Place, entry_of, inner_of};
use clear_tree::{What, host_folder};
use deeds::Deed;
use std::alloc::{AllocError, Global};
use vault_layout::{CONTENTS_FILE, DIRECTORY_FILE, IDENTIFIER_COPY, LINK_FILE, NAME_FILE};

/// The deeds that remove the node at a place: a file, a link, or a directory without nodes and foreign entries. A Bad node has
/// none. They are a batch. Fails only if memory runs out.
pub fn remove_deeds(alloc: Global, place: &Place, what: &What) -> Result<Vec<Deed>, AllocError>
    requires place { IsHostPlace (place_at place.now) }
    requires own { HasHostFolder (kept_what what.now) }
    ensures deeds { IfOk result (λ deeds. plains deeds.items ≡ changes.remove_deeds (place_at place.now) (kept_what what.now)) }
    ensures batch { IfOk result (λ deeds. IsBatch (plains deeds.items)) }
{
    removal(alloc, place, what)
}

// The deeds alone.
fn removal(alloc: Global, place: &Place, what: &What) -> Result<Vec<Deed>, AllocError>
    requires place { IsHostPlace (place_at place.now) }
    requires own { HasHostFolder (kept_what what.now) }
    ensures { IfOk result (λ deeds. plains deeds.items ≡ changes.remove_deeds (place_at place.now) (kept_what what.now)) }
{
    match what {
        What::File { .. } if place.long => node_removal(alloc, place, CONTENTS_FILE),
        What::File { .. } => Ok(vec![in alloc; Deed::Remove(entry_of(place))]?),
        What::Link { .. } => node_removal(alloc, place, LINK_FILE),
        What::Dir { folder, .. } => dir_removal(alloc, place, folder),
        What::Bad { .. } => Ok(Vec::new(alloc)),
    }
}

// The known file goes, and then its folder.
fn node_removal(alloc: Global, place: &Place, known: &[u8]) -> Result<Vec<Deed>, AllocError>
    requires place { IsHostPlace (place_at place.now) }
    requires known { IsTrue (is_part known.now) }
    ensures { IfOk result (λ deeds. plains deeds.items
        ≡ remove_node_at (place_at place.now).long (place_at place.now).folder (place_at place.now).entry known.now) }
{
    if !place.long {
        return Ok(vec![in alloc;
            Deed::Remove(inner_of(place, known)),
            Deed::RemoveDir(entry_of(place)),
        ]?);
    }
    let deeds = vec![in alloc;
        Deed::Remove(inner_of(place, known)),
        Deed::Remove(inner_of(place, NAME_FILE)),
        Deed::RemoveDir(entry_of(place)),
    ]?;
    Ok(deeds)
}

// The node folder goes, and then the directory's own folder with the copy of its identifier.
fn dir_removal(alloc: Global, place: &Place, own: &[u8; 32]) -> Result<Vec<Deed>, AllocError>
    requires place { IsHostPlace (place_at place.now) }
    requires own { IsTrue (is_path (host_folder own.now)) }
    ensures { IfOk result (λ deeds. plains deeds.items
        ≡ remove_dir_at (place_at place.now).long (place_at place.now).folder (place_at place.now).entry own.now) }
{
    let folder = host_folder(own);
    let copy = folder.joined(IDENTIFIER_COPY);
    if !place.long {
        let deeds = vec![in alloc;
            Deed::Remove(inner_of(place, DIRECTORY_FILE)),
            Deed::RemoveDir(entry_of(place)),
            Deed::Remove(copy),
            Deed::RemoveDir(folder),
        ]?;
        return Ok(deeds);
    }
    let deeds = vec![in alloc;
        Deed::Remove(inner_of(place, DIRECTORY_FILE)),
        Deed::Remove(inner_of(place, NAME_FILE)),
        Deed::RemoveDir(entry_of(place)),
        Deed::Remove(copy),
        Deed::RemoveDir(folder),
    ]?;
    Ok(deeds)
}
