ghost use Rattle.tree_loading.specs.Format.{sealing_of};
ghost use Rattle.tree_deed_laws.specs.Trees.{AreTexts};
ghost use Rattle.name_places.specs.Laws.{ClaimsAreWhole, DatingKeeps, EntriesAreParts, KeptClaims, MakingKeeps, RemovingKeeps, RenamingKeeps, WritingKeeps};

use tree_loading::are_ciphers;
use vault_keys::VaultKeys;

/// Which texts are those of sealed names under a vault's keys: no long place and no copy of an identifier is one. It does
/// nothing.
pub fn are_texts(keys: &VaultKeys)
    ensures { AreTexts (sealing_of keys.now) }
{
    are_ciphers(keys);
}

/// Changes that name no folder and take none away leave the claims as they are. It does nothing.
pub fn changes_keep_claims()
    ensures making { MakingKeeps }
    ensures removing { RemovingKeeps }
    ensures renaming { RenamingKeeps }
    ensures writing { WritingKeeps }
    ensures dating { DatingKeeps }
{}

/// Of each node below the root that names a folder there is a claim. It does nothing.
pub fn claims_are_whole()
    ensures { ClaimsAreWhole }
{}

/// What is kept of a node names the folder that the node names: a text that was cut is no identifier, as the whole one. It does
/// nothing.
pub fn kept_claims(keys: &VaultKeys)
    ensures { KeptClaims keys.now }
{}

/// Host paths can be made of the entries of a disk's nodes. It does nothing.
pub fn entries_are_parts(keys: &VaultKeys)
    ensures { EntriesAreParts keys.now }
{
    are_ciphers(keys);
}
