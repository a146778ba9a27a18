ghost use Rattle.std.specs.Prelude.{◌≡◌};
ghost use Rattle.vault_layout.specs.Names.{contents_file, directory_file, folders, identifier_copy, journal_file, link_file, masterkey_file, name_file, new_journal_file, new_vault_file, vault_file};

/// The file of the two keys, each wrapped under a password.
pub const MASTERKEY_FILE: &[u8] = b"masterkey.cryptomator";

/// The signed file of a vault's format and threshold.
pub const VAULT_FILE: &[u8] = b"vault.cryptomator";

/// Where a new vault file is written before it takes its place.
pub const NEW_VAULT_FILE: &[u8] = b"vault.cryptomator.new";

/// The journal's file.
pub const JOURNAL_FILE: &[u8] = b"served.journal";

/// Where the first journal is written before it takes its place.
pub const NEW_JOURNAL_FILE: &[u8] = b"served.journal.new";

/// The folder of all directories' folders.
pub const FOLDERS: &[u8] = b"d";

/// In a node's folder, the file with the identifier of a directory.
pub const DIRECTORY_FILE: &[u8] = b"dir.c9r";

/// In a node's folder, the sealed target of a link.
pub const LINK_FILE: &[u8] = b"symlink.c9r";

/// In a node's folder at a long place, the sealed contents of a file.
pub const CONTENTS_FILE: &[u8] = b"contents.c9r";

/// In a node's folder at a long place, the file with its sealed name.
pub const NAME_FILE: &[u8] = b"name.c9s";

/// In a directory's own folder, the sealed copy of its identifier.
pub const IDENTIFIER_COPY: &[u8] = b"dirid.c9r";

/// The names of the code are those of the definitions. It does nothing.
pub fn names_are_the_formats()
    ensures masterkey_file { MASTERKEY_FILE.now ≡ masterkey_file }
    ensures vault_file { VAULT_FILE.now ≡ vault_file }
    ensures new_vault_file { NEW_VAULT_FILE.now ≡ new_vault_file }
    ensures journal_file { JOURNAL_FILE.now ≡ journal_file }
    ensures new_journal_file { NEW_JOURNAL_FILE.now ≡ new_journal_file }
    ensures folders { FOLDERS.now ≡ folders }
    ensures directory_file { DIRECTORY_FILE.now ≡ directory_file }
    ensures link_file { LINK_FILE.now ≡ link_file }
    ensures contents_file { CONTENTS_FILE.now ≡ contents_file }
    ensures name_file { NAME_FILE.now ≡ name_file }
    ensures identifier_copy { IDENTIFIER_COPY.now ≡ identifier_copy }
{}
