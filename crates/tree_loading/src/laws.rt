ghost use Rattle.tree_loading.specs.Format.{sealing_of};
ghost use Rattle.tree_loading.specs.Ciphers.{AreCiphers};

use vault_keys::VaultKeys;

/// The format's functions under a vault's keys are such that an entry of a folder stands for one node at most: texts open
/// to the names that they were sealed from, long places are no texts. It does nothing.
pub fn are_ciphers(keys: &VaultKeys)
    ensures { AreCiphers (sealing_of keys.now) }
{
    vault_names::opening_undoes_sealing(keys);
    siv_mode::opening_is_exact(keys);
}
