ghost use Rattle.std.specs.Prelude.{ℕ, Option, OnOk, IfErr};
ghost use Rattle.outside.specs.Views.{folder_in, entropy_in};
ghost use Rattle.vault_top.specs.Span.{course, source_in, given_of};
ghost use Rattle.vault_top.specs.Making.{IsMade, IsNotMade};

use crate::cause::Cause;
use outside::{Entropy, Folder, Source};
use std::alloc::Global;
use unlocking::read_password;
use vault_make::make;

/// Makes a vault in an empty folder under the secret's password.
pub(crate) fn make_vault<D: Folder, E: Entropy, S: Source>(
    alloc: Global,
    folder: &mut D,
    entropy: &mut E,
    secret: &mut S,
) -> Result<(), Cause>
    ensures made { OnOk result ((second : Option ℕ) → IsMade
        (given_of (folder_in D.Reads) (course (source_in S.Source) secret.old secret.new) second folder.old folder.new)
        (course (entropy_in E.Entropy) entropy.old entropy.new)) }
    ensures not_made { IfErr result (λ cause. (second : Option ℕ) → IsNotMade
        (given_of (folder_in D.Reads) (course (source_in S.Source) secret.old secret.new) second folder.old folder.new)
        (course (entropy_in E.Entropy) entropy.old entropy.new) cause) }
{
    let password = read_password(alloc, secret)?;
    Ok(make(alloc, folder, password.as_bytes(), entropy)?)
}
