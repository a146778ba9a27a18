ghost use Rattle.std.specs.Prelude.{◌≡◌, ◌<◌, ◌^◌, length, IfOk, IsTrue};
ghost use Rattle.vault_path.specs.Parts.{is_path};
ghost use Rattle.deeds.specs.Grammar.{IsBatch};
ghost use Rattle.deeds.specs.Plain.{plains};
ghost use Rattle.clear_tree.specs.Places.{host_folder};
ghost use Rattle.tree_deed_laws.specs.Deeds as changes;
ghost use Rattle.node_deeds.specs.Made.{IsHostPlace, place_at};

use crate::place::{Place, entry_of, inner_of};
use clear_tree::{host_folder, host_two};
use deeds::Deed;
use std::alloc::{AllocError, Global};
use vault_layout::{CONTENTS_FILE, DIRECTORY_FILE, NAME_FILE};

/// The deeds that make a file without chunks, of this header, at a place. `text` is the text of its name, which a long place
/// keeps. They are a batch. Fails only if memory runs out.
pub fn create_file_deeds(
    alloc: Global,
    place: &Place,
    text: &[u8],
    header: Vec<u8>,
) -> Result<Vec<Deed>, AllocError>
    requires place { IsHostPlace (place_at place.now) }
    requires text { length text.now < 2 ^ 32 }
    requires header { length header.items < 2 ^ 32 }
    ensures deeds { IfOk result (λ deeds. plains deeds.items ≡ changes.create_file_deeds (place_at place.now) text.now header.items) }
    ensures batch { IfOk result (λ deeds. IsBatch (plains deeds.items)) }
{
    file_creation(alloc, place, text, header)
}

// The same, whatever the lengths.
fn file_creation(
    alloc: Global,
    place: &Place,
    text: &[u8],
    header: Vec<u8>,
) -> Result<Vec<Deed>, AllocError>
    requires { IsHostPlace (place_at place.now) }
    ensures { IfOk result (λ deeds. plains deeds.items ≡ changes.create_file_deeds (place_at place.now) text.now header.items) }
{
    if !place.long {
        return Ok(vec![in alloc; Deed::Put(entry_of(place), header)]?);
    }
    let name = Vec::from_slice(alloc, text)?;
    let deeds = vec![in alloc;
        Deed::MakeDir(entry_of(place)),
        Deed::Put(inner_of(place, NAME_FILE), name),
        Deed::Put(inner_of(place, CONTENTS_FILE), header),
    ]?;
    Ok(deeds)
}

/// The deeds that make a directory of this identifier at a place, with its own folder of these 32 characters. They are a batch.
/// Fails only if memory runs out.
pub fn create_dir_deeds(
    alloc: Global,
    place: &Place,
    text: &[u8],
    own: &[u8; 32],
    identifier: &[u8],
) -> Result<Vec<Deed>, AllocError>
    requires place { IsHostPlace (place_at place.now) }
    requires own { IsTrue (is_path (host_folder own.now)) }
    requires text { length text.now < 2 ^ 32 }
    requires identifier { length identifier.now < 2 ^ 32 }
    ensures deeds { IfOk result (λ deeds. plains deeds.items ≡ changes.create_dir_deeds (place_at place.now) text.now own.now identifier.now) }
    ensures batch { IfOk result (λ deeds. IsBatch (plains deeds.items)) }
{
    dir_creation(alloc, place, text, own, identifier)
}

// The same, whatever the lengths.
fn dir_creation(
    alloc: Global,
    place: &Place,
    text: &[u8],
    own: &[u8; 32],
    identifier: &[u8],
) -> Result<Vec<Deed>, AllocError>
    requires place { IsHostPlace (place_at place.now) }
    requires own { IsTrue (is_path (host_folder own.now)) }
    ensures { IfOk result (λ deeds. plains deeds.items ≡ changes.create_dir_deeds (place_at place.now) text.now own.now identifier.now) }
{
    let bytes = Vec::from_slice(alloc, identifier)?;
    if !place.long {
        let deeds = vec![in alloc;
            Deed::MakeDir(host_two(own)),
            Deed::MakeDir(host_folder(own)),
            Deed::MakeDir(entry_of(place)),
            Deed::Put(inner_of(place, DIRECTORY_FILE), bytes),
        ]?;
        return Ok(deeds);
    }
    let name = Vec::from_slice(alloc, text)?;
    let deeds = vec![in alloc;
        Deed::MakeDir(host_two(own)),
        Deed::MakeDir(host_folder(own)),
        Deed::MakeDir(entry_of(place)),
        Deed::Put(inner_of(place, NAME_FILE), name),
        Deed::Put(inner_of(place, DIRECTORY_FILE), bytes),
    ]?;
    Ok(deeds)
}
