//! Deeds: changes of a folder that are done in a batch, their bytes, and what a stop leaves of them.
//!
//! ```text
//! let len = write_batch(&deeds, 0, &mut piece);
//! let again = read_batch(alloc, bytes)?;
//! do_batch(&mut folder, &again)?;
//! ```
//!
//! A batch is a list of deeds that the journal can hold: each in its grammar, their counts and lengths within their fields.
//! It is done in three phases, each ended by a sync: make (`MakeDir`, `Put`, `Reshape`), move (`Rename`), remove
//! (`Remove`, `RemoveDir`). Deeds that name no path twice can be done again on whatever a stop left of them, and leave the
//! same disk.
//!
//! Bytes of a batch: count\[4\] and that many deeds, numbers most significant byte first.
//!
//! | kind\[1\] | deed | fields |
//! |---|---|---|
//! | 1 | `MakeDir` | path |
//! | 2 | `Put` | path, n\[4\], n bytes |
//! | 3 | `Rename` | path, path |
//! | 4 | `Remove` | path |
//! | 5 | `RemoveDir` | path |
//! | 6 | `Reshape` | path, length\[8\], n\[4\], n times offset\[8\], m\[4\], m bytes |
//!
//! A path is its number of parts\[1\] (1 to 6), and each part's length\[1\] and bytes.
//!
//! A batch of which a deed doesn't fit is done up to the first call whose condition fails: the deeds before it, and of a `Reshape` the writes before
//! that call. A `Put` doesn't fit where a folder is, nor where a file is that has more bytes than it: a stop leaves no such file of it, so another
//! program saved one there. A `Rename` doesn't fit where another file is at the name that it goes to: a stop leaves the moved file alone there, or
//! under both names, so another program saved one at either of them.
//!
//! Laws: `doing_again`, `staying_amid`, `doing_beside` and `applying_again`, which do nothing.
#![tactic(auto)]

mod batch;
mod compare;
mod deed;
mod fault;
mod phase;
mod reading;
mod repeatable;
mod window;
mod writes;
mod writing;

ghost use Rattle.std.specs.Prelude.{◌≡◌, List, ℕ, [], ◌∷◌};
ghost use Rattle.outside.specs.Disk.{Disk, IsTree, IsFolder};
ghost use Rattle.deeds.specs.Applying.{Applies, GoesAsFar};
ghost use Rattle.deeds.specs.Deeds.{PlainDeed, DoesAll, AreApart, IsAmid, IsSameDisk, IsOneOf, IsAlikeBut, Unnamed, IsPartOfDeed};

pub use batch::{do_batch, len_before, read_batch, write_batch};
pub use deed::{Deed, do_deed, do_phase};
pub use fault::BatchErr;
pub use phase::{DeedErr, Phase};
pub use repeatable::{is_repeatable, journal_path, new_path};
pub use writes::{Range, do_reshape};
pub use writing::spelled_len;

/// Deeds that name no path twice, done again on any disk amid their application, leave the same disk. It does nothing.
pub fn doing_again()
    ensures { (deeds : List PlainDeed) (old new image : Disk) → DoesAll deeds old new → IsTree new → AreApart deeds → IsAmid deeds old image
        → (again : Disk) × DoesAll deeds image again × IsSameDisk again new }
{}

/// What a stop leaves while deeds are done, in whatever order, stays amid their application. It does nothing.
pub fn staying_amid()
    ensures stays { (deeds : List PlainDeed) (deed : PlainDeed) (old before image : Disk) → AreApart deeds → IsOneOf deed deeds
        → IsPartOfDeed deed before image → IsAmid deeds old before → IsAmid deeds old image }
    ensures begun { (deeds : List PlainDeed) (old : Disk) → IsAmid deeds old old }
    ensures tree { (deeds : List PlainDeed) (old new : Disk) → IsTree old → DoesAll deeds old new → IsTree new }
{}

/// Deeds that can be done on a disk can be done on one that differs at two paths in the folder itself which they don't name. It
/// does nothing.
pub fn doing_beside()
    ensures { (one two : List ℕ) (deeds : List PlainDeed) (old new other : Disk) → DoesAll deeds old new → Unnamed (one ∷ []) deeds → Unnamed (two ∷ []) deeds
        → (IsFolder old (one ∷ []) → ⊥) × (IsFolder old (two ∷ []) → ⊥) → IsAlikeBut (one ∷ []) (two ∷ []) old other
        → (after : Disk) × DoesAll deeds other after × IsAlikeBut (one ∷ []) (two ∷ []) new after }
{}

/// Deeds that are done up to the first call whose condition fails leave one disk, and if all of them can be done, what doing them leaves. Done so
/// again on any disk amid what was done of them, they leave the same. It does nothing.
pub fn applying_again()
    ensures one { (deeds : List PlainDeed) (old new other : Disk) → Applies deeds old new → Applies deeds old other → new ≡ other }
    ensures whole { (deeds : List PlainDeed) (old new : Disk) → DoesAll deeds old new → Applies deeds old new }
    ensures again { (deeds part : List PlainDeed) (old new image : Disk) → GoesAsFar deeds old part → DoesAll part old new → IsTree new → AreApart deeds → IsAmid part old image
        → (again : Disk) × Applies deeds image again × IsSameDisk again new }
{}
