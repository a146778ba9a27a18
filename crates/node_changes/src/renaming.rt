ghost use Rattle.std.specs.Prelude.{◌≡◌, ◌≤◌, ◌<◌, ◌^◌, ◌⊎◌, ◌||◌, ◌&&◌, ℕ, List, length, is_some, None, Some, IsSome, IsTrue, IfOk, IfErr, OnErr, OnOk};
ghost use Rattle.vault_layout.specs.Limits.{max_threshold};
ghost use Rattle.vault_path.specs.Parts.{is_part, is_path};
ghost use Rattle.outside.specs.Calls.{Changes, Rose, Told};
ghost use Rattle.outside.specs.Images.{disk_in};
ghost use Rattle.deeds.specs.Grammar.{IsBatch};
ghost use Rattle.deeds.specs.Plain.{plains};
ghost use Rattle.deeds.specs.Repeatable.{IsRepeatable};
ghost use Rattle.tree_model.specs.declared.refusal.Refusal.TheVariants as refusals;
ghost use Rattle.tree_model.specs.Asked.{PlainChange, change};
ghost use Rattle.clear_tree.specs.Kept.{folder_in};
ghost use Rattle.clear_tree.specs.Places.{host_folder};
ghost use Rattle.tree_loading.specs.Format.{sealing_of};
ghost use Rattle.live_tree.specs.Held.{node_of, IsTree};
ghost use Rattle.name_places.specs.Asked.{IsTaken};
ghost use Rattle.node_changes.specs.Changed.{IsAtRest, MayHaveChanged, MayRefuse};
ghost use Rattle.node_changes.specs.Causes.{ErrCause, IfBroken, IfRefused, IsUnchanged, RefusalCause};
ghost use Rattle.node_changes.specs.Placed.{taken_for};
ghost use Rattle.node_changes.specs.Renaming.{HasRenamed, IsRenaming};
ghost use Rattle.node_changes.specs.NewName.{AreNaming, IsNameRefusal, IsNameable, IsNamedTree, IsNewName, IsPlaceRefusal, IsRenameRefusal, IsStuck, RenamesOn, RowsAreNamed};

use crate::error::ChangeErr;
use crate::misfit::refusal_of;
use crate::places::{directory_above, is_host_part};
use crate::tree::VaultTree;
use batch_looks::look;
use chunk_journal::Journal;
use clear_tree::What;
use deeds::Deed;
use live_tree::{LiveNode, LiveTree};
use name_places::{
    NewPlace, are_texts, claims_are_whole, entries_are_parts, kept_claims, place_name, taken,
};
use node_deeds::{Place, rename_deeds};
use outside::{Folder, Reads};
use std::alloc::{AllocError, Global};
use tree_loading::are_ciphers;
use tree_model::Refusal;
use vault_names::Name;
use vault_path::Text;

/// A name that a node is to be given.
#[derive(Drop)]
pub(crate) struct NewName {
    /// A valid clear name.
    pub(crate) name: Text,
    /// The 32 characters of the folder that the node is in.
    pub(crate) folder: [u8; 32],
    /// The name's place there.
    pub(crate) place: NewPlace,
}

impl VaultTree {
    /// Gives the node of a number another name in its directory, and an mtime if one is asked for, at a second since 1970-01-01.
    /// It is refused as the plain file tree's step refuses it, if the new place is taken (`PlaceTaken`), if the folder that goes
    /// has an entry now that isn't the node's (`Foreign`), if the folder failed or another program changed what the new name needs
    /// of it (`DeviceFault`), and if memory ran out (`OutOfMemory`), and then nothing changed. After `Broken` the folder's count of
    /// faults rose, and the tree in memory is the one with the new name.
    pub fn rename<D: Folder>(
        &mut self,
        journal: &mut Journal<D>,
        number: u64,
        name: Name,
        modified: Option<u32>,
        now: u32,
    ) -> Result<(), ChangeErr>
        requires rest { Told (D.log journal.old) (IsAtRest (sealing_of self.old.keys) self.old.live self.old.claims) }
        requires threshold { (1 ≤ self.old.threshold) × (self.old.threshold ≤ max_threshold) }
        ensures changed { (c : PlainChange) → IsRenaming (sealing_of self.old.keys) self.old.live self.old.claims number name modified c
            → OnOk result (Changes (D.log journal.old) (D.log journal.new)
            (HasRenamed (sealing_of self.old.keys) number c now self.old.live self.new.live self.old.claims self.new.claims)) }
        ensures broken { (c : PlainChange) → IsRenaming (sealing_of self.old.keys) self.old.live self.old.claims number name modified c
            → IfErr result (λ error. IfBroken error (Changes (D.log journal.old) (D.log journal.new)
            (MayHaveChanged (sealing_of self.old.keys) (change number c) now self.old.live self.new.live self.old.claims self.new.claims))) }
        ensures refused { (c : PlainChange) → IsRenaming (sealing_of self.old.keys) self.old.live self.old.claims number name modified c
            → IfErr result (λ error. IfRefused error (λ refusal. Told (disk_in (D.log journal.old))
            (λ d. MayRefuse (sealing_of self.old.keys) (change number c) now
            (taken_for (sealing_of self.old.keys) d self.old.live (change number c) None) refusal d self.old.live self.old.claims))) }
        ensures unchanged { IfErr result (λ error. IfRefused error (λ refusal.
            IsUnchanged self.old.live self.new.live self.old.claims self.new.claims (D.log journal.old) (D.log journal.new))) }
        ensures cause { (c : PlainChange) → IsSome c.name
            → IfErr result (ErrCause (change number c) (Rose (D.faults journal.old) (D.faults journal.new)) ⊥) }
        ensures later { D.faults journal.old ≤ D.faults journal.new }
        ensures keys { self.new.keys ≡ self.old.keys }
        ensures threshold { self.new.threshold ≡ self.old.threshold }
    {
        match self.give_name(journal, number, name, modified, now) {
            Ok(deeds) => match journal.commit(&deeds) {
                Ok(()) => Ok(()),
                Err(_) => Err(ChangeErr::Broken),
            },
            Err(refusal) => Err(ChangeErr::Refused(refusal)),
        }
    }

    // Gives a node another name in the tree in memory, and returns the deeds that do so on the disk. If it is refused nothing
    // changed.
    fn give_name<R: Reads>(
        &mut self,
        folder: &mut R,
        number: u64,
        name: Name,
        modified: Option<u32>,
        now: u32,
    ) -> Result<Vec<Deed>, Refusal>
        requires { (1 ≤ self.old.threshold) × (self.old.threshold ≤ max_threshold) }
        ensures made { IfOk result (λ deeds. Told (disk_in (R.log folder.old))
            (RenamesOn (sealing_of self.old.keys) number name modified now self.old.live self.new.live self.old.claims self.new.claims (plains deeds.items))) }
        ensures batch { IfOk result (λ deeds. IsBatch (plains deeds.items)) }
        ensures repeatable { IfOk result (λ deeds. IsRepeatable (plains deeds.items)) }
        ensures refused { IfErr result (λ refusal. Told (disk_in (R.log folder.old))
            (IsRenameRefusal (sealing_of self.old.keys) number name modified now refusal self.old.live self.old.claims)) }
        ensures cause { (c : PlainChange) → IsSome c.name
            → IfErr result (RefusalCause (change number c) (Rose (R.faults folder.old) (R.faults folder.new)) ⊥) }
        ensures same_live { OnErr result (self.new.live ≡ self.old.live) }
        ensures claims { self.new.claims ≡ self.old.claims }
        ensures log { R.log folder.new ≡ R.log folder.old }
        ensures later { R.faults folder.old ≤ R.faults folder.new }
        ensures keys { self.new.keys ≡ self.old.keys }
        ensures threshold { self.new.threshold ≡ self.old.threshold }
    {
        are_texts(&self.keys);
        kept_claims(&self.keys);
        claims_are_whole();
        entries_are_parts(&self.keys);
        let new = self.new_name(number, name)?;
        self.check_place(folder, &new)?;
        let deeds = naming_deeds(self.alloc, &self.live, number, &new)?;
        if let Err(misfit) = look(self.alloc, folder, &deeds) {
            return Err(refusal_of(misfit));
        }
        match self.put_name(number, new, modified, now) {
            Ok(()) => Ok(deeds),
            Err(_) => Err(Refusal::OutOfMemory),
        }
    }

    // The name that a node is to be given, and its place.
    fn new_name(&self, number: u64, name: Name) -> Result<NewName, Refusal>
        requires { (1 ≤ self.now.threshold) × (self.now.threshold ≤ max_threshold) }
        ensures new { IfOk result (IsNewName (sealing_of self.now.keys) self.now.live number) }
        ensures name { IfOk result (λ new. new.name ≡ name) }
        ensures refusal { IfErr result (IsNameRefusal self.now.live number name) }
        ensures tree { IsTree self.now.live }
    {
        are_ciphers(&self.keys);
        let node = nameable(&self.live, number)?;
        let above = directory_above(&self.live, node);
        let Ok(place) = place_name(
            self.alloc,
            &self.keys,
            above.identifier,
            self.threshold,
            &name,
        ) else {
            return Err(Refusal::OutOfMemory);
        };
        let name = name.into_text();
        if self.live.look(node.parent(), &name).is_some() {
            return Err(Refusal::FileExists);
        }
        if is_held(&self.live, node) {
            return Err(Refusal::Foreign);
        }
        Ok(NewName {
            name,
            folder: *above.folder,
            place,
        })
    }

    // Refuses a new name whose place is taken.
    fn check_place<R: Reads>(&self, folder: &mut R, new: &NewName) -> Result<(), Refusal>
        requires { IsTrue (is_path (host_folder new.now.folder)) }
        ensures untaken { OnOk result (Told (disk_in (R.log folder.old))
            (IsTaken new.now.folder new.now.place None self.now.live self.now.claims None)) }
        ensures refusal { IfErr result (IsPlaceRefusal new.now self.now.live self.now.claims (disk_in (R.log folder.old))
            (Rose (R.faults folder.old) (R.faults folder.new))) }
        ensures log { R.log folder.new ≡ R.log folder.old }
        ensures later { R.faults folder.old ≤ R.faults folder.new }
    {
        match taken(
            folder,
            &new.folder,
            &new.place,
            None,
            &self.live,
            &self.claims,
        ) {
            Ok(None) => Ok(()),
            Ok(Some(path)) => Err(Refusal::PlaceTaken(path)),
            Err(_) => Err(Refusal::DeviceFault),
        }
    }

    // Gives a node its new name in the tree in memory, and an mtime if one is asked for. If memory runs out the tree stays as it
    // is.
    fn put_name(
        &mut self,
        number: u64,
        new: NewName,
        modified: Option<u32>,
        now: u32,
    ) -> Result<(), AllocError>
        requires new { IsNewName (sealing_of self.old.keys) self.old.live number new }
        requires tree { IsTree self.old.live }
        ensures live { OnOk result (IsNamedTree self.old.live self.new.live number new modified now) }
        ensures rows { OnOk result (RowsAreNamed self.old.live self.new.live number new.name modified now) }
        ensures same { OnErr result (self.new.live ≡ self.old.live) }
        ensures claims { self.new.claims ≡ self.old.claims }
        ensures keys { self.new.keys ≡ self.old.keys }
        ensures threshold { self.new.threshold ≡ self.old.threshold }
    {
        let NewName { name, place, .. } = new;
        self.live
            .rename(number, name, place.entry, place.long, now)?;
        if let Some(modified) = modified {
            self.live.set_modified(number, modified);
        }
        Ok(())
    }
}

// The node of a number, if it is one that can have another name.
fn nameable(live: &LiveTree, number: u64) -> Result<&LiveNode, Refusal>
    ensures node { IfOk result (λ node. IsNameable live.now number node.now) }
    ensures refusal { IfErr result (λ refusal. (name : List ℕ) → IsNameRefusal live.now number name refusal) }
    ensures tree { IsTree live.now }
{
    // for its clause: what each tree is
    let _count = live.len();
    let Some(node) = live.node(number) else {
        return Err(Refusal::Removed);
    };
    if number == 0 {
        return Err(Refusal::NotPermitted);
    }
    match node.what() {
        What::Bad { .. } => Err(Refusal::Damaged),
        What::Dir { .. } | What::File { .. } | What::Link { .. } => Ok(node),
    }
}

// Whether something keeps a node at its name.
fn is_held(live: &LiveTree, node: &LiveNode) -> bool
    ensures { result ≡ (node.now.kept.shadowed || (is_some (folder_in node.now.kept.what) && live.now.twice)) }
{
    node.is_shadowed() || (node.folder().is_some() && live.is_twice())
}

// The deeds that bring a node to the place of its new name. `Damaged` is for one that no disk has where it is.
fn naming_deeds(
    alloc: Global,
    live: &LiveTree,
    number: u64,
    new: &NewName,
) -> Result<Vec<Deed>, Refusal>
    requires there { IsSome (node_of live.now number) }
    requires folder { IsTrue (is_path (host_folder new.now.folder)) }
    requires entry { IsTrue (is_part new.now.place.entry) }
    requires text { length new.now.place.text < 2 ^ 32 }
    ensures deeds { IfOk result (λ deeds. AreNaming live.now number new.now (plains deeds.items)) }
    ensures batch { IfOk result (λ deeds. IsBatch (plains deeds.items)) }
    ensures repeatable { IfOk result (λ deeds. IsRepeatable (plains deeds.items)) }
    ensures refusal { IfErr result (λ refusal. (refusal ≡ refusals.OutOfMemory)
        ⊎ ((refusal ≡ refusals.Damaged) × IsStuck live.now number new.now)) }
{
    let Some(node) = live.node(number) else {
        unreachable!()
    };
    let entry = new.place.entry.as_bytes();
    if !is_host_part(node.entry()) || node.entry() == entry {
        return Err(Refusal::Damaged);
    }
    let old_place = Place {
        folder: &new.folder,
        entry: node.entry(),
        long: node.is_long(),
    };
    let new_place = Place {
        folder: &new.folder,
        entry,
        long: new.place.long,
    };
    let text = new.place.text.as_bytes();
    match rename_deeds(alloc, &old_place, &new_place, text, node.what()) {
        Ok(deeds) => Ok(deeds),
        Err(_) => Err(Refusal::OutOfMemory),
    }
}
