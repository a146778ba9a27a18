ghost use Rattle.std.specs.Prelude.{◌≡◌, ◌≤◌, ℕ, List, true, false, Ok, Some, None, IfOk, IfErr, IsErr, IsErrOf, IsSome, OnErr, OnOk};
ghost use Rattle.vault_layout.specs.Limits.{max_threshold};
ghost use Rattle.outside.specs.Calls.{Changes, HasCause, Rose, Told};
ghost use Rattle.outside.specs.Images.{disk_in};
ghost use Rattle.deeds.specs.Grammar.{IsBatch};
ghost use Rattle.deeds.specs.Plain.{plains};
ghost use Rattle.deeds.specs.Repeatable.{IsRepeatable};
ghost use Rattle.file_chunks.specs.Header.{header_opens};
ghost use Rattle.tree_model.specs.Names.{clear_name};
ghost use Rattle.tree_model.specs.Asked.{create, qid};
ghost use Rattle.tree_model.specs.Step.{says};
ghost use Rattle.tree_deed_laws.specs.Deeds.{Place as PlainPlace, create_dir_deeds as dir_deeds_of, create_file_deeds as file_deeds_of};
ghost use Rattle.tree_model.specs.Rows.{is_dir as is_directory};
ghost use Rattle.clear_tree.specs.Built.{HasHostFolder, kept_what};
ghost use Rattle.clear_tree.specs.Kept.{kind_of};
ghost use Rattle.clear_tree.specs.Walk.{Sealing};
ghost use Rattle.tree_loading.specs.Format.{sealing_of};
ghost use Rattle.live_tree.specs.Changes.{CanBeMade, RowsAreAdded, added, new_node};
ghost use Rattle.name_places.specs.New.{IsNewDirectory};
ghost use Rattle.node_changes.specs.Changed.{IsAtRest};
ghost use Rattle.node_changes.specs.Causes.{ErrCause, IfRefused, IsUnchanged, RefusalCause};
ghost use Rattle.node_changes.specs.Creation.{IsCreation};
ghost use Rattle.node_changes.specs.Placed.{GoesOn};
ghost use Rattle.node_changes.specs.Creating.{DrawsHead, DrawsIf, HasRefused, IsReady, IsSite, MakesOn, new_qid};

use crate::error::ChangeErr;
use crate::misfit::refusal_of;
use crate::site::Site;
use crate::tree::VaultTree;
use batch_looks::{Misfit, look};
use chunk_journal::Journal;
use clear_tree::What;
use deeds::Deed;
use file_chunks::{HEADER_LENGTH, new_header};
use live_tree::LiveTree;
use name_places::{
    NewDirectory, NewPlace, are_texts, entries_are_parts, kept_claims, new_directory,
};
use node_deeds::{Place, create_dir_deeds, create_file_deeds};
use outside::{Entropy, Failed, Folder, Reads};
use std::alloc::AllocError;
use tree_model::{Qid, Refusal};
use vault_keys::VaultKeys;
use vault_path::Text;

impl VaultTree {
    /// Makes a file without content, or a directory, of a name in the directory of a number, at a second since 1970-01-01, and
    /// returns its qid. For a directory 16 bytes are drawn for its identifier, for a file a nonce and a content key for its header.
    /// Memory is taken, and the folder looked at, before anything changes: it is `DeviceFault` if the folder failed, or if another
    /// program took away what the node is to be in. After `Broken` the folder's count of faults rose, and the tree in memory is the
    /// one with the node. It takes O(log n) steps, if n numbers were given so far.
    pub fn create<D: Folder, E: Entropy>(
        &mut self,
        journal: &mut Journal<D>,
        entropy: &mut E,
        parent: u64,
        name: &str,
        is_dir: bool,
        now: u32,
    ) -> Result<Qid, ChangeErr>
        requires rest { Told (D.log journal.old) (IsAtRest (sealing_of self.old.keys) self.old.live self.old.claims) }
        requires threshold { (1 ≤ self.old.threshold) × (self.old.threshold ≤ max_threshold) }
        ensures came { (mode : ℕ) → IsCreation self.old.keys (create parent name.now is_dir mode) is_dir now result self.old.live self.new.live
            self.old.claims self.new.claims (E.drawn entropy.old) (E.drawn entropy.new) (D.log journal.old) (D.log journal.new) }
        ensures unchanged { IfErr result (λ error. IfRefused error (λ refusal.
            IsUnchanged self.old.live self.new.live self.old.claims self.new.claims (D.log journal.old) (D.log journal.new))) }
        ensures cause { (mode : ℕ) → IfErr result (ErrCause (create parent name.now is_dir mode) (Rose (D.faults journal.old) (D.faults journal.new))
            (Rose (E.faults entropy.old) (E.faults entropy.new))) }
        ensures later { D.faults journal.old ≤ D.faults journal.new }
        ensures entropy { E.faults entropy.old ≤ E.faults entropy.new }
        ensures keys { self.new.keys ≡ self.old.keys }
        ensures threshold { self.new.threshold ≡ self.old.threshold }
    {
        let qid = new_qid(&self.live, is_dir);
        match self.make(journal, entropy, parent, name.as_bytes(), is_dir, now) {
            Ok(deeds) => match journal.commit(&deeds) {
                Ok(()) => Ok(qid),
                Err(_) => Err(ChangeErr::Broken),
            },
            Err(refusal) => Err(ChangeErr::Refused(refusal)),
        }
    }

    // Makes a node in the tree in memory, and returns the deeds that make it. If it is refused nothing changed.
    fn make<R: Reads, E: Entropy>(
        &mut self,
        folder: &mut R,
        entropy: &mut E,
        parent: u64,
        name: &[u8],
        is_dir: bool,
        now: u32,
    ) -> Result<Vec<Deed>, Refusal>
        requires { (1 ≤ self.old.threshold) × (self.old.threshold ≤ max_threshold) }
        ensures ready { (mode : ℕ) → IfOk result (λ deeds. IsReady self.old.keys (create parent name.now is_dir mode) is_dir now
            (says (qid (new_qid self.old.live is_dir))) self.old.live self.new.live self.old.claims self.new.claims
            (E.drawn entropy.old) (E.drawn entropy.new) (disk_in (R.log folder.old)) (plains deeds.items)) }
        ensures batch { IfOk result (λ deeds. IsBatch (plains deeds.items)) }
        ensures repeatable { IfOk result (λ deeds. IsRepeatable (plains deeds.items)) }
        ensures refused { (mode : ℕ) → IfErr result (HasRefused self.old.keys (create parent name.now is_dir mode) is_dir now
            self.old.live self.old.claims (E.drawn entropy.old) (E.drawn entropy.new) (disk_in (R.log folder.old))) }
        ensures cause { (mode : ℕ) → IfErr result (RefusalCause (create parent name.now is_dir mode)
            (Rose (R.faults folder.old) (R.faults folder.new)) (Rose (E.faults entropy.old) (E.faults entropy.new))) }
        ensures same_live { OnErr result (self.new.live ≡ self.old.live) }
        ensures same_claims { OnErr result (self.new.claims ≡ self.old.claims) }
        ensures log { R.log folder.new ≡ R.log folder.old }
        ensures later { R.faults folder.old ≤ R.faults folder.new }
        ensures entropy { E.faults entropy.old ≤ E.faults entropy.new }
        ensures keys { self.new.keys ≡ self.old.keys }
        ensures threshold { self.new.threshold ≡ self.old.threshold }
    {
        entries_are_parts(&self.keys);
        // for its clause: each node is in a directory
        let _count = self.live.len();
        let site = self.site(parent, name)?;
        let Ok(directory) = draw_directory(&self.keys, entropy, is_dir) else {
            return Err(Refusal::RandomFault);
        };
        self.check_places(folder, &site, directory.as_ref())?;
        match directory {
            Some(directory) => match self.make_directory(folder, parent, site, &directory, now) {
                Ok(deeds) => Ok(deeds),
                Err(misfit) => Err(refusal_of(misfit)),
            },
            None => {
                let Ok(header) = draw_header(&self.keys, entropy) else {
                    return Err(Refusal::RandomFault);
                };
                match self.make_file(folder, parent, site, &header, now) {
                    Ok(deeds) => Ok(deeds),
                    Err(misfit) => Err(refusal_of(misfit)),
                }
            }
        }
    }

    // Makes a file at a site in the tree in memory, and returns the deeds that make it. If the folder doesn't fit them, or memory
    // runs out, nothing changed.
    fn make_file<R: Reads>(
        &mut self,
        folder: &mut R,
        parent: u64,
        site: Site,
        header: &[u8; HEADER_LENGTH],
        now: u32,
    ) -> Result<Vec<Deed>, Misfit>
        requires site { IsSite (sealing_of self.old.keys) self.old.live parent site }
        requires header { IsSome (header_opens self.old.keys header.now) }
        ensures makes { (name : List ℕ) (mode : ℕ) → clear_name name ≡ Ok site.name → IfOk result (λ deeds.
            MakesOn (sealing_of self.old.keys) (create parent name false mode) now (says (qid (new_qid self.old.live false))) None
            self.old.live self.new.live self.old.claims self.new.claims (plains deeds.items)) }
        ensures deeds { IfOk result (λ deeds. (place : PlainPlace) × (text : List ℕ) × (plains deeds.items ≡ file_deeds_of place text header.now)) }
        ensures batch { IfOk result (λ deeds. IsBatch (plains deeds.items)) }
        ensures repeatable { IfOk result (λ deeds. IsRepeatable (plains deeds.items)) }
        ensures own { IsErrOf result Misfit.Foreign → ⊥ }
        ensures same_live { OnErr result (self.new.live ≡ self.old.live) }
        ensures same_claims { OnErr result (self.new.claims ≡ self.old.claims) }
        ensures log { R.log folder.new ≡ R.log folder.old }
        ensures cause { HasCause (R.faults folder.old) (R.faults folder.new) (IsErrOf result Misfit.Device) }
        ensures keys { self.new.keys ≡ self.old.keys }
        ensures threshold { self.new.threshold ≡ self.old.threshold }
    {
        are_texts(&self.keys);
        kept_claims(&self.keys);
        // for its clause: each node is in a directory
        let _count = self.live.len();
        let bytes = Vec::from_slice(self.alloc, header)?;
        let place = Place {
            folder: &site.folder,
            entry: site.place.entry.as_bytes(),
            long: site.place.long,
        };
        let deeds = create_file_deeds(self.alloc, &place, site.place.text.as_bytes(), bytes)?;
        look(self.alloc, folder, &deeds)?;
        let what = What::File {
            size: HEADER_LENGTH as u64,
        };
        self.add(parent, site, what, now)?;
        Ok(deeds)
    }

    // The same for a directory that was drawn.
    fn make_directory<R: Reads>(
        &mut self,
        folder: &mut R,
        parent: u64,
        site: Site,
        directory: &NewDirectory,
        now: u32,
    ) -> Result<Vec<Deed>, Misfit>
        requires site { IsSite (sealing_of self.old.keys) self.old.live parent site }
        requires directory { (bytes : List ℕ) × IsNewDirectory (sealing_of self.old.keys) bytes directory.now }
        ensures makes { (name : List ℕ) (mode : ℕ) → clear_name name ≡ Ok site.name → IfOk result (λ deeds.
            MakesOn (sealing_of self.old.keys) (create parent name true mode) now (says (qid (new_qid self.old.live true)))
            (Some directory.now.identifier) self.old.live self.new.live self.old.claims self.new.claims (plains deeds.items)) }
        ensures deeds { IfOk result (λ deeds. (place : PlainPlace) × (text : List ℕ)
            × (plains deeds.items ≡ dir_deeds_of place text directory.now.folder directory.now.identifier)) }
        ensures batch { IfOk result (λ deeds. IsBatch (plains deeds.items)) }
        ensures repeatable { IfOk result (λ deeds. IsRepeatable (plains deeds.items)) }
        ensures own { IsErrOf result Misfit.Foreign → ⊥ }
        ensures same_live { OnErr result (self.new.live ≡ self.old.live) }
        ensures same_claims { OnErr result (self.new.claims ≡ self.old.claims) }
        ensures log { R.log folder.new ≡ R.log folder.old }
        ensures cause { HasCause (R.faults folder.old) (R.faults folder.new) (IsErrOf result Misfit.Device) }
        ensures keys { self.new.keys ≡ self.old.keys }
        ensures threshold { self.new.threshold ≡ self.old.threshold }
    {
        are_texts(&self.keys);
        kept_claims(&self.keys);
        // for its clause: each node is in a directory
        let _count = self.live.len();
        let place = Place {
            folder: &site.folder,
            entry: site.place.entry.as_bytes(),
            long: site.place.long,
        };
        let deeds = create_dir_deeds(
            self.alloc,
            &place,
            site.place.text.as_bytes(),
            &directory.folder,
            &directory.identifier,
        )?;
        look(self.alloc, folder, &deeds)?;
        let identifier = Vec::from_slice(self.alloc, &directory.identifier)?;
        let what = What::Dir {
            identifier: Text::from_vec(identifier),
            folder: directory.folder,
        };
        let is_new = self.claims.insert(directory.folder, self.live.next())?;
        if let Err(_) = self.add(parent, site, what, now) {
            if is_new {
                self.claims.remove(&directory.folder);
            }
            return Err(Misfit::Memory);
        }
        Ok(deeds)
    }

    // Puts a node at a site of the tree in memory, which stays as it is if memory runs out.
    fn add(&mut self, parent: u64, site: Site, what: What, now: u32) -> Result<(), AllocError>
        requires site { (s : Sealing) × IsSite s self.old.live parent site }
        requires what { CanBeMade (kept_what what) }
        requires folder { HasHostFolder (kept_what what) }
        ensures live { OnOk result (self.new.live ≡ added self.old.live
            (new_node parent site.name (kept_what what) site.place.entry site.place.long now) now) }
        ensures rows { OnOk result (RowsAreAdded self.old.live self.new.live parent site.name (is_directory (kind_of (kept_what what))) now) }
        ensures same { OnErr result (self.new.live ≡ self.old.live) }
        ensures claims { self.new.claims ≡ self.old.claims }
        ensures keys { self.new.keys ≡ self.old.keys }
        ensures threshold { self.new.threshold ≡ self.old.threshold }
    {
        let Site { name, place, .. } = site;
        let NewPlace { entry, long, .. } = place;
        self.live.add(parent, name, what, entry, long, now)?;
        Ok(())
    }
}

// The qid of the next node.
fn new_qid(live: &LiveTree, is_dir: bool) -> Qid
    ensures { result ≡ new_qid live.now is_dir }
{
    let kind = if is_dir { Qid::DIRECTORY } else { Qid::FILE };
    Qid {
        kind,
        version: 0,
        path: live.next(),
    }
}

// Draws the directory that is to be made, if it is one.
fn draw_directory<E: Entropy>(
    keys: &VaultKeys,
    entropy: &mut E,
    is_dir: bool,
) -> Result<Option<NewDirectory>, Failed>
    ensures drawn { IfOk result (λ directory. DrawsIf keys.now is_dir directory (E.drawn entropy.old) (E.drawn entropy.new)) }
    ensures unspent { OnErr result (E.drawn entropy.new ≡ E.drawn entropy.old) }
    ensures cause { HasCause (E.faults entropy.old) (E.faults entropy.new) (IsErr result) }
{
    if !is_dir {
        return Ok(None);
    }
    let mut bytes = [0; 16];
    entropy.fill(&mut bytes)?;
    Ok(Some(new_directory(keys, &bytes)))
}

// Draws the header of a file.
fn draw_header<E: Entropy>(keys: &VaultKeys, entropy: &mut E) -> Result<[u8; HEADER_LENGTH], Failed>
    ensures drawn { IfOk result (DrawsHead keys.now (E.drawn entropy.old) (E.drawn entropy.new)) }
    ensures partly { OnErr result (Changes (E.drawn entropy.old) (E.drawn entropy.new) GoesOn) }
    ensures cause { HasCause (E.faults entropy.old) (E.faults entropy.new) (IsErr result) }
{
    let header = new_header(keys, entropy)?;
    let bytes = header.1;
    Ok(bytes)
}
