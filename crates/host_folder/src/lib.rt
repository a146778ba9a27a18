//! A folder over a host's calls, which tells what it holds and what a power cut may leave of it wherever the host does.
//!
//! ```
//! let unsettled = Unsettled::new(host, alloc, "/srv/vault")?; // it can be read
//! let mut folder = unsettled.settle(&paths); // on the disk is what an earlier run left off it at these paths
//! folder.put(&path, b"some bytes")?; // a new file, by one call of the host
//! folder.sync()?; // a flush of the file and of the folder that it is in
//! ```
//!
//! A folder's log and the host's story belong together (`IsHeld`) if reads give what the log says, each volume that a power cut may
//! leave is an image of the log, and all that isn't on the disk yet is at the paths that the next sync flushes. The laws lead from
//! call to call: a step that was taken, in part or whole, and noted keeps that, as do a flush, a sync and an opening. A change has the
//! next sync flush its paths also where it finds itself done, since an earlier run may have left that off the disk.
//!
//! A flush that fails can't be made good: each sync fails from then on. If that happens as a folder is settled, a power cut may still
//! leave what no log says, and the folder tells nothing.
#![tactic(auto)]

ghost use Rattle.std.specs.Prelude.{◌≡◌, false, Bool, List, [], Contains};
ghost use Rattle.outside.specs.Disk.{Path};
ghost use Rattle.outside.specs.Images.{Call, Synced, IsImage, now};
ghost use Rattle.outside.specs.Unsynced.{touched, unsynced};
ghost use Rattle.host_calls.specs.Volume.{Volume, disk_of};
ghost use Rattle.host_calls.specs.Story.{Story, IsLeft, disk_now, notes, restarted};
ghost use Rattle.host_folder.specs.Held.{IsHeld, IsSure, IsLater};
ghost use Rattle.host_folder.specs.Opened.{IsOpened};

mod count;
mod flushing;
mod folder;
mod host;
mod making;
mod naming;
mod path_buffer;
mod reading;
mod touched;
mod unsettled;
mod writing;

pub use folder::HostFolder;
pub use unsettled::Unsettled;

/// A kill leaves what the log says, since the host goes on; a power cut leaves an image of the log, and after a sync what reads
/// give. It does nothing.
pub fn stops()
    ensures kill { (story : Story) (touched moved : List Path) (failed : Bool) → IsHeld story touched moved failed → disk_now story ≡ now story.diary }
    ensures power_cut { (story : Story) (touched moved : List Path) (failed : Bool) → IsHeld story touched moved failed
        → (volume : Volume) → IsLeft story volume → IsImage story.diary (disk_of volume) }
    ensures synced { (story : Story) (failed : Bool) → IsHeld story [] [] failed → IsSure story [] → IsHeld (notes Synced story) [] [] failed }
{}

/// Once all is on the disk that an earlier run left off it, a log that begins with what reads give is kept. It does nothing.
pub fn starts()
    ensures { (paths : List Path) (old new : Story) → IsOpened paths old → IsLater old new → IsSure new [] → IsHeld new [] [] false }
{}

/// After a kill a folder can be opened anew, and settled at paths among which are those of each change since the last sync, unless a flush
/// failed. If the kill came amid a change, what that left is what it would leave broken off; and a kill amid the settling leaves what
/// can be settled at the same paths. It does nothing.
pub fn restarts()
    ensures kill { (story : Story) (kept moved paths : List Path) → IsHeld story kept moved false
        → ((path : Path) → Contains (touched (unsynced story.diary.calls)) path → Contains paths path) → IsOpened paths (restarted story) }
    ensures amid { (story : Story) (call : Call) → restarted (notes call story) ≡ restarted story }
    ensures again { (paths : List Path) (old new : Story) → IsOpened paths old → IsLater old new → new.doubt ≡ false → IsOpened paths new }
{}
