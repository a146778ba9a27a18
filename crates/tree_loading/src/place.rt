ghost use Rattle.std.specs.Prelude.{◌≡◌, ◌↔◌, ◌||◌, ℕ, List, true, false, Some, IsTrue, IfOk, IsErrOf, Contains};
ghost use Rattle.outside.specs.Disk.{IsFolder, IsListing, IsTree};
ghost use Rattle.outside.specs.Calls.{HasCause, Told};
ghost use Rattle.outside.specs.Images.{disk_in};
ghost use Rattle.tree_loading.specs.Reading.{CanHoldParts, Shows, is_further, known_file, long_kind, short_at, short_kind};
ghost use Rattle.tree_loading.specs.Showing.{IsPlace};

use crate::found::Shown;
use crate::reading::{inner, listing, size_at, text_at};
use crate::scan_fault::ScanErr;
use outside::{Kind, Reads};
use std::alloc::Global;
use vault_layout::{CONTENTS_FILE, DIRECTORY_FILE, IDENTIFIER_LIMIT, LINK_FILE, NAME_FILE};
use vault_path::{Text, VaultPath};

// No more of a `dir.c9r` is kept than shows whether it is an identifier.
const TEXT_LIMIT: usize = IDENTIFIER_LIMIT + 1;

/// What an entry shows where it is, and whether its folder has further entries.
#[derive(Drop)]
pub(crate) struct Showing {
    pub(crate) shown: Shown,
    pub(crate) further: bool,
}

impl Showing {
    /// Whether a node that shows this is shadowed, if it has a twin or not.
    pub(crate) fn is_shadowed(&self, twin: bool) -> bool
        ensures { result ≡ (self.now.further || twin) }
    {
        self.further || twin
    }
}

/// What an entry shows at its short place, if it is a host file or a node folder with a known file there.
pub(crate) fn short_place<R: Reads>(
    alloc: Global,
    from: &mut R,
    node: &VaultPath,
) -> Result<Option<Showing>, ScanErr>
    requires { CanHoldParts node.now }
    ensures place { IfOk result (λ place. Told (disk_in (R.log from.old)) (λ d. IsTree d → IsPlace d node.now false (short_at d node.now) place)) }
    ensures log { R.log from.new ≡ R.log from.old }
    ensures changes { R.changes from.new ≡ R.changes from.old }
    ensures cause { HasCause (R.faults from.old) (R.faults from.new) (IsErrOf result ScanErr.Device) }
{
    match from.kind(node)? {
        Some(Kind::File(size)) => Ok(Some(Showing {
            shown: Shown::File(size),
            further: false,
        })),
        Some(Kind::Dir) => short_folder(alloc, from, node),
        // A symbolic link of the host or a device.
        None => Ok(None),
    }
}

// What a node folder shows at a short place, if it may be listed.
fn short_folder<R: Reads>(
    alloc: Global,
    from: &mut R,
    node: &VaultPath,
) -> Result<Option<Showing>, ScanErr>
    requires parts { CanHoldParts node.now }
    requires folder { Told (disk_in (R.log from.old)) (λ d. IsFolder d node.now) }
    ensures place { IfOk result (λ place. Told (disk_in (R.log from.old)) (λ d. IsPlace d node.now false (Some (short_kind d node.now)) place)) }
    ensures log { R.log from.new ≡ R.log from.old }
    ensures changes { R.changes from.new ≡ R.changes from.old }
    ensures cause { HasCause (R.faults from.old) (R.faults from.new) (IsErrOf result ScanErr.Device) }
{
    let Some(names) = listing(alloc, from, node)? else {
        return Ok(None);
    };
    let Some(shown) = short_shown(alloc, from, node)? else {
        return Ok(None);
    };
    let further = has_further(&names, &shown, false);
    Ok(Some(Showing { shown, further }))
}

/// What a node folder of these names shows at a long place, if it has a known file there.
pub(crate) fn long_place<R: Reads>(
    alloc: Global,
    from: &mut R,
    node: &VaultPath,
    names: &[Text],
) -> Result<Option<Showing>, ScanErr>
    requires parts { CanHoldParts node.now }
    requires listed { Told (disk_in (R.log from.old)) (λ d. IsListing d node.now names.now) }
    ensures place { IfOk result (λ place. Told (disk_in (R.log from.old)) (λ d. IsPlace d node.now true (Some (long_kind d node.now)) place)) }
    ensures log { R.log from.new ≡ R.log from.old }
    ensures changes { R.changes from.new ≡ R.changes from.old }
    ensures cause { HasCause (R.faults from.old) (R.faults from.new) (IsErrOf result ScanErr.Device) }
{
    let Some(shown) = long_shown(alloc, from, node)? else {
        return Ok(None);
    };
    let further = has_further(names, &shown, true);
    Ok(Some(Showing { shown, further }))
}

// What a node folder at a short place shows, if it has a known file: `dir.c9r`, else `symlink.c9r`.
fn short_shown<R: Reads>(
    alloc: Global,
    from: &mut R,
    node: &VaultPath,
) -> Result<Option<Shown>, ScanErr>
    requires { CanHoldParts node.now }
    ensures shown { IfOk result (λ shown. Told (disk_in (R.log from.old)) (λ d. Shows (short_kind d node.now) shown)) }
    ensures log { R.log from.new ≡ R.log from.old }
    ensures changes { R.changes from.new ≡ R.changes from.old }
    ensures cause { HasCause (R.faults from.old) (R.faults from.new) (IsErrOf result ScanErr.Device) }
{
    let directory = inner(node, DIRECTORY_FILE);
    match text_at(alloc, from, &directory, TEXT_LIMIT)? {
        Some(text) => Ok(Some(Shown::Directory(text))),
        None => match size_at(from, &inner(node, LINK_FILE))? {
            Some(size) => Ok(Some(Shown::Link(size))),
            None => Ok(None),
        },
    }
}

// What a node folder at a long place shows, if it has a known file: as at a short place, else `contents.c9r`.
fn long_shown<R: Reads>(
    alloc: Global,
    from: &mut R,
    node: &VaultPath,
) -> Result<Option<Shown>, ScanErr>
    requires { CanHoldParts node.now }
    ensures shown { IfOk result (λ shown. Told (disk_in (R.log from.old)) (λ d. Shows (long_kind d node.now) shown)) }
    ensures log { R.log from.new ≡ R.log from.old }
    ensures changes { R.changes from.new ≡ R.changes from.old }
    ensures cause { HasCause (R.faults from.old) (R.faults from.new) (IsErrOf result ScanErr.Device) }
{
    match short_shown(alloc, from, node)? {
        Some(shown) => Ok(Some(shown)),
        None => match size_at(from, &inner(node, CONTENTS_FILE))? {
            Some(size) => Ok(Some(Shown::File(size))),
            None => Ok(None),
        },
    }
}

// Whether a node folder of these names has entries beside the known file of what it shows, and `name.c9s` of a long one.
fn has_further(names: &[Text], shown: &Shown, long: bool) -> bool
    ensures { IsTrue result ↔ ((name : List ℕ) × Contains names.now name × IsTrue (is_further (known_file shown.now) long name)) }
{
    let known = known_file(shown);
    names
        .iter()
        .any(|name| is_further(known, long, name.as_bytes()))
}

// The known file of a node folder, by what it shows.
fn known_file(shown: &Shown) -> &'static [u8]
    ensures { result.now ≡ known_file shown.now }
{
    match shown {
        Shown::File(_) => CONTENTS_FILE,
        Shown::Link(_) => LINK_FILE,
        Shown::Directory(_) => DIRECTORY_FILE,
    }
}

fn is_further(known: &[u8], long: bool, entry: &[u8]) -> bool
    ensures { result ≡ is_further known.now long entry.now }
{
    entry != known && !(long && entry == NAME_FILE)
}
