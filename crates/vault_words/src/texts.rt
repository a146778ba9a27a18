ghost use Rattle.std.specs.Prelude.{◌≡◌};
ghost use Rattle.vault_words.specs.Texts.{help_of};

use crate::job::Topic;

/// What `--help` prints.
pub const HELP: &str = "\
Serves a Cryptomator vault over 9P2000

Usage: vaultd <COMMAND>

Commands:
  serve    Serves the vault in a folder
  make     Makes a vault in an empty folder
  demo     Serves a vault in memory to clients that send drawn requests
  sync     Has a running server put on disk what was written
  recover  Shows what the open journal of a vault holds, or closes it
  help     Prints this, or the help of a command

Options:
  -h, --help     Print help
  -V, --version  Print version

Examples:
  vaultd make DIR --passfile FILE
  vaultd serve DIR --listen unix:PATH --passfile FILE
  vaultd serve DIR --listen 127.0.0.1:564 --read-only <FILE

Exit status:
  0   the vault was served, made, synced or recovered, the demonstration held, or help or the version printed
  1   the words are bad
  2   the secret is no password or no two keys, or the wrong one
  3   the vault is refused
  4   input, output or the random source failed, or DIR does not exist
  5   out of memory
  6   the journal of the vault is damaged
  7   the address can't be listened on, or the listener failed
  8   the folder of a new vault isn't empty
  14  the vault is in use
  15  the journal is open, so that the vault can't be served read-only
";

/// What `serve --help` prints.
pub const SERVE_HELP: &str = "\
Serves the vault in a folder

Usage: vaultd serve [OPTIONS] --listen <ADDR> <DIR>

Arguments:
  <DIR>  The folder of the vault

Options:
      --listen <ADDR>    Where clients connect: HOST:PORT, unix:PATH, or - for one on the standard streams
      --sessions <N>     Ends after N sessions, 1 to 1000000; without it serves until it is stopped
      --at-once <M>      Serves so many sessions at once, 1 to 64 [default: 8]
      --idle <SECONDS>   Ends a session in which nothing came for so long, up to 1000000; 0 is never [default: 0]
      --read-only        Changes nothing in DIR, and refuses each request that would
      --raw-key          Takes 128 hexadecimal digits for the secret: the encryption key and the MAC key
      --passfile <FILE>  Takes the secret from the first line of FILE, not of standard input
  -q, --quiet            Writes nothing but faults on standard error
  -v, --verbose...       Writes each session on standard error too, and given twice the names of files
  -h, --help             Print help
";

/// What `make --help` prints.
pub const MAKE_HELP: &str = "\
Makes a vault in an empty folder

Usage: vaultd make [OPTIONS] <DIR>

Arguments:
  <DIR>  An empty folder, which becomes the vault's

Options:
      --passfile <FILE>  Takes the password from the first line of FILE, not of standard input
  -h, --help             Print help
";

/// What `demo --help` prints.
pub const DEMO_HELP: &str = "\
Serves a vault in memory to clients that send drawn requests

Usage: vaultd demo --seed <S> --clients <M> --requests <R>

Options:
      --seed <S>      The number that the requests are drawn from, below 2^64
      --clients <M>   So many clients at once, 1 to 64
      --requests <R>  So many requests of each client, up to 100000
  -h, --help          Print help
";

/// What `sync --help` prints.
pub const SYNC_HELP: &str = "\
Has a running server put on disk what was written

Usage: vaultd sync <ADDR>

Arguments:
  <ADDR>  Where the server listens: HOST:PORT or unix:PATH

Options:
  -h, --help  Print help
";

/// What `recover --help` prints.
pub const RECOVER_HELP: &str = "\
Shows what the open journal of a vault holds, or closes it

Usage: vaultd recover [OPTIONS] <DIR>

Arguments:
  <DIR>  The folder of the vault

Options:
      --skip     Makes the changes that fit DIR, leaves out the others, and closes the journal
      --discard  Renames the journal to served.journal.1, or the next number that is free
  -h, --help     Print help
";

/// What `--version` prints.
pub const VERSION: &str = "vaultd 1.0.0\n";

/// The help of a topic.
pub fn help_text(topic: Topic) -> &'static str
    ensures { result.now ≡ help_of topic }
{
    match topic {
        Topic::Program => HELP,
        Topic::Serve => SERVE_HELP,
        Topic::Make => MAKE_HELP,
        Topic::Demo => DEMO_HELP,
        Topic::Sync => SYNC_HELP,
        Topic::Recover => RECOVER_HELP,
    }
}
