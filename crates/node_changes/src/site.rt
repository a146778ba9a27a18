ghost use Rattle.std.specs.Prelude.{◌≡◌, ◌≤◌, ℕ, Bool, Ok, None, IfOk, IfErr, IfSome, IsTrue, OnOk};
ghost use Rattle.std.specs.Option.{option_copied};
ghost use Rattle.vault_layout.specs.Limits.{max_threshold};
ghost use Rattle.vault_path.specs.Parts.{is_path};
ghost use Rattle.outside.specs.Calls.{Rose, Told};
ghost use Rattle.outside.specs.Images.{disk_in};
ghost use Rattle.tree_model.specs.Names.{clear_name};
ghost use Rattle.tree_model.specs.Rows.{Content};
ghost use Rattle.tree_model.specs.Asked.{create};
ghost use Rattle.tree_model.specs.Step.{is_full};
ghost use Rattle.clear_tree.specs.Places.{host_folder};
ghost use Rattle.clear_tree.specs.Built.{kept_what};
ghost use Rattle.tree_loading.specs.Format.{sealing_of};
ghost use Rattle.live_tree.specs.Held.{live_rows};
ghost use Rattle.name_places.specs.Asked.{IsTaken};
ghost use Rattle.node_changes.specs.Causes.{RefusalCause};
ghost use Rattle.node_changes.specs.Placed.{identifier_in};
ghost use Rattle.node_changes.specs.Creating.{IsPlaceRefusal, IsSite, IsSiteRefusal, name_fault_refusal};

use crate::tree::VaultTree;
use clear_tree::What;
use live_tree::LiveTree;
use name_places::{NewDirectory, NewPlace, place_name, taken};
use outside::Reads;
use tree_loading::are_ciphers;
use tree_model::Refusal;
use vault_names::{BadName, clear_name};
use vault_path::Text;

// The most nodes that a tree has.
const NODE_LIMIT: usize = 1_048_576;

/// Where a new node is to be.
#[derive(Drop)]
pub(crate) struct Site {
    /// Its name, a valid clear name.
    pub(crate) name: Text,
    /// The 32 characters of the folder of the directory that it is made in.
    pub(crate) folder: [u8; 32],
    /// Its place in that folder.
    pub(crate) place: NewPlace,
}

impl VaultTree {
    /// Where a new node of this name is to be in the directory of a number.
    pub(crate) fn site(&self, parent: u64, name: &[u8]) -> Result<Site, Refusal>
        requires { (1 ≤ self.now.threshold) × (self.now.threshold ≤ max_threshold) }
        ensures site { IfOk result (IsSite (sealing_of self.now.keys) self.now.live parent) }
        ensures name { IfOk result (λ site. clear_name name.now ≡ Ok site.name) }
        ensures refusal { IfErr result (IsSiteRefusal self.now.live parent name.now) }
        ensures cause { (is_dir : Bool) (mode : ℕ) → IfErr result (RefusalCause (create parent name.now is_dir mode) ⊥ ⊥) }
    {
        are_ciphers(&self.keys);
        // for its clause: a number has one node
        let _count = self.live.len();
        let Some(node) = self.live.node(parent) else {
            return Err(Refusal::Removed);
        };
        let Some(identifier) = identifier_in(node.what()) else {
            return Err(Refusal::NotADirectory);
        };
        let Some(folder) = node.folder() else {
            return Err(Refusal::NotADirectory);
        };
        let clear = match clear_name(self.alloc, name) {
            Ok(clear) => clear,
            Err(fault) => return Err(name_refusal(fault)),
        };
        let Ok(name) = Text::from_slice(self.alloc, clear.as_bytes()) else {
            return Err(Refusal::OutOfMemory);
        };
        if self.live.look(parent, &name).is_some() {
            return Err(Refusal::FileExists);
        }
        if is_full(&self.live) {
            return Err(Refusal::VaultFull);
        }
        match place_name(self.alloc, &self.keys, identifier, self.threshold, &clear) {
            Ok(place) => Ok(Site {
                name,
                folder: *folder,
                place,
            }),
            Err(_) => Err(Refusal::OutOfMemory),
        }
    }

    /// Refuses a site if a path that the node needs is taken. `drawn` is the directory that is to be made there, if it is one.
    pub(crate) fn check_places<R: Reads>(
        &self,
        folder: &mut R,
        site: &Site,
        drawn: Option<&NewDirectory>,
    ) -> Result<(), Refusal>
        requires folder { IsTrue (is_path (host_folder site.now.folder)) }
        requires drawn { IfSome drawn (λ directory. IsTrue (is_path (host_folder directory.now.folder))) }
        ensures untaken { OnOk result (Told (disk_in (R.log folder.old))
            (IsTaken site.now.folder site.now.place (option_copied drawn.entry) self.now.live self.now.claims None)) }
        ensures refusal { IfErr result (IsPlaceRefusal site.now (option_copied drawn.entry) self.now.live self.now.claims
            (disk_in (R.log folder.old)) (Rose (R.faults folder.old) (R.faults folder.new))) }
        ensures log { R.log folder.new ≡ R.log folder.old }
        ensures later { R.faults folder.old ≤ R.faults folder.new }
    {
        match taken(
            folder,
            &site.folder,
            &site.place,
            drawn,
            &self.live,
            &self.claims,
        ) {
            Ok(None) => Ok(()),
            Ok(Some(path)) => Err(Refusal::PlaceTaken(path)),
            Err(_) => Err(Refusal::DeviceFault),
        }
    }
}

// The identifier of a directory.
fn identifier_in(what: &What) -> Option<&[u8]>
    ensures { option_copied result ≡ identifier_in (kept_what what.now) }
{
    match what {
        What::Dir { identifier, .. } => Some(identifier.as_bytes()),
        What::File { .. } | What::Link { .. } | What::Bad { .. } => None,
    }
}

// What refuses bytes that are no name.
fn name_refusal(fault: BadName) -> Refusal
    ensures { result ≡ name_fault_refusal fault }
{
    match fault {
        BadName::NotUtf8 | BadName::Empty | BadName::Dots | BadName::Forbidden => Refusal::BadName,
        BadName::TooLong(_) => Refusal::NameTooLong,
        BadName::Memory => Refusal::OutOfMemory,
    }
}

// Whether a tree has no room for a further node.
fn is_full(live: &LiveTree) -> bool
    ensures { (contents : ℕ → Content) → is_full (live_rows contents live.now) ≡ result }
{
    live.len() >= NODE_LIMIT || live.next() == u64::MAX
}
