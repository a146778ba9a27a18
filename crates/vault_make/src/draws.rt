ghost use Rattle.std.specs.Prelude.{◌≡◌, ◌%◌, IfOk, IsErr};
ghost use Rattle.outside.specs.Calls.{Extends, HasCause};
ghost use Rattle.vault_make.specs.Draws.{AreOfLength, drawn_bytes, draws_data};

use outside::{Entropy, Failed};
use vault_keys::VaultKeys;

/// What is drawn for a new vault.
#[derive(Drop)]
pub(crate) struct Draws {
    pub(crate) keys: VaultKeys,
    /// scrypt's salt.
    pub(crate) salt: [u8; 8],
    /// The bytes of the vault file's identifier.
    pub(crate) jti: [u8; 16],
}

/// Draws the encryption key, the MAC key, the salt and the identifier, in this order.
pub(crate) fn draw_all<E: Entropy>(entropy: &mut E) -> Result<Draws, Failed>
    ensures drawn { IfOk result (λ draws. Extends (E.drawn entropy.old) (E.drawn entropy.new) (drawn_bytes (draws_data draws))) }
    ensures lengths { IfOk result (λ draws. AreOfLength (draws_data draws)) }
    ensures cause { HasCause (E.faults entropy.old) (E.faults entropy.new) (IsErr result) }
{
    let encryption_key = draw::<32, E>(entropy)?;
    let mac_key = draw::<32, E>(entropy)?;
    let salt = draw::<8, E>(entropy)?;
    let jti = draw::<16, E>(entropy)?;
    Ok(Draws {
        keys: VaultKeys::new(&encryption_key, &mac_key),
        salt,
        jti,
    })
}

// The next bytes of a random source.
fn draw<const N: usize, E: Entropy>(entropy: &mut E) -> Result<[u8; N], Failed>
    requires { N % 4 ≡ 0 }
    ensures drawn { IfOk result (λ bytes. Extends (E.drawn entropy.old) (E.drawn entropy.new) bytes) }
    ensures cause { HasCause (E.faults entropy.old) (E.faults entropy.new) (IsErr result) }
{
    let mut bytes = [0; N];
    entropy.fill(&mut bytes)?;
    Ok(bytes)
}
