ghost use Rattle.std.specs.Prelude.{◌≡◌, ◌≢◌, ◌↔◌, ◌++◌, [], ◌∷◌, ℕ, List, Contains, IsTrue};
ghost use Rattle.deeds.specs.Deeds.{names, NotIn, Unnamed};
ghost use Rattle.deeds.specs.Plain.{plain, plains};

use deeds::Deed;
use vault_path::{Text, VaultPath};

/// Whether one of these entries of a folder is named by no deed.
pub(crate) fn has_unnamed(folder: &VaultPath, entries: &[Text], deeds: &[Deed]) -> bool
    ensures { IsTrue result → (name : List ℕ) × Contains entries.now name × Unnamed (folder.now ++ name ∷ []) (plains deeds.now) }
{
    for entry in entries {
        if is_unnamed(folder, entry.as_bytes(), deeds) {
            return true;
        }
    }
    false
}

// Whether no deed names an entry of a folder.
fn is_unnamed(folder: &VaultPath, entry: &[u8], deeds: &[Deed]) -> bool
    ensures { IsTrue result ↔ Unnamed (folder.now ++ entry.now ∷ []) (plains deeds.now) }
{
    for deed in deeds {
        if !is_beside(folder, entry, deed) {
            return false;
        }
    }
    true
}

// Whether a deed doesn't name an entry of a folder.
fn is_beside(folder: &VaultPath, entry: &[u8], deed: &Deed) -> bool
    ensures { IsTrue result ↔ NotIn (folder.now ++ entry.now ∷ []) (names (plain deed.now)) }
{
    match deed {
        Deed::MakeDir(path) => differs(path, folder, entry),
        Deed::Put(path, _) => differs(path, folder, entry),
        Deed::Rename(from, to) => differs(from, folder, entry) && differs(to, folder, entry),
        Deed::Remove(path) => differs(path, folder, entry),
        Deed::RemoveDir(path) => differs(path, folder, entry),
        Deed::Reshape(path, _, _) => differs(path, folder, entry),
    }
}

// Whether a path isn't that of an entry of a folder.
fn differs(path: &VaultPath, folder: &VaultPath, entry: &[u8]) -> bool
    ensures { IsTrue result ↔ (folder.now ++ entry.now ∷ [] ≢ path.now) }
{
    match path.name_in(folder) {
        Some(name) => name != entry,
        None => true,
    }
}

/// Whether a path is that of one of these entries of a folder.
pub(crate) fn is_listed(path: &VaultPath, folder: &VaultPath, entries: &[Text]) -> bool {
    entries
        .iter()
        .any(|entry| !differs(path, folder, entry.as_bytes()))
}

/// Whether a deed makes a folder at this path.
pub(crate) fn is_made(path: &VaultPath, deeds: &[Deed]) -> bool {
    deeds
        .iter()
        .any(|deed| matches!(deed, Deed::MakeDir(made) if made == path))
}
