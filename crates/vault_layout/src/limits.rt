ghost use Rattle.std.specs.Prelude.{◌≡◌};
ghost use Rattle.vault_layout.specs.Limits.{default_threshold, identifier_limit, key_file_limit, max_threshold, password_limit};

/// The threshold of a new vault, and of one that its raw keys unlock: the longest sealed name, in characters, that isn't shortened.
pub const DEFAULT_THRESHOLD: u32 = 220;

/// The largest threshold that a vault file may claim.
pub const MAX_THRESHOLD: u32 = 250;

/// The longest identifier of a directory, in bytes.
pub const IDENTIFIER_LIMIT: usize = 1000;

/// The longest password, in bytes.
pub const PASSWORD_LIMIT: usize = 1024;

/// The longest key file, in bytes: a longer one isn't looked into.
pub const KEY_FILE_LIMIT: usize = 65536;

/// The numbers of the code are those of the definitions. It does nothing.
pub fn limits_are_the_formats()
    ensures default_threshold { DEFAULT_THRESHOLD ≡ default_threshold }
    ensures max_threshold { MAX_THRESHOLD ≡ max_threshold }
    ensures identifier_limit { IDENTIFIER_LIMIT ≡ identifier_limit }
    ensures password_limit { PASSWORD_LIMIT ≡ password_limit }
    ensures key_file_limit { KEY_FILE_LIMIT ≡ key_file_limit }
{}
