//! Laws of what waits, for contracts alone.

ghost use Rattle.std.specs.Prelude.{◌≡◌, ◌≤◌, ◌+◌, ℕ, List, [], Some, None, length, take, max};
ghost use Rattle.outside.specs.Changes.{overwritten};
ghost use Rattle.outside.specs.Disk.{Disk, Path, node_at, file, IsTree};
ghost use Rattle.deeds.specs.Reshape.{Ranges};
ghost use Rattle.deeds.specs.Deeds.{PlainDeed, DoesAll, in_order};
ghost use Rattle.pending_files.specs.Pending.{ArePending, IsPlace, file_of, cut_in, put_in, sealed_length};
ghost use Rattle.pending_files.specs.Laid.{laid, CanWait, LookAlike};
ghost use Rattle.pending_files.specs.Later.{CanReshape, IsReshaped, IsChangedTo, IsWhole};

/// What waits can be done if each of its files can be reshaped; then each of them is, and all else is as it was. It does
/// nothing.
pub fn doing_what_waits()
    ensures can { (deeds : List PlainDeed) (old : Disk) → ArePending deeds
        → ((path : Path) (len : ℕ) (ranges : Ranges) → file_of path deeds ≡ Some (len, ranges) → CanReshape path len ranges old)
        → (later : Disk) × DoesAll (in_order deeds) old later }
    ensures files { (deeds : List PlainDeed) (old later : Disk) (path : Path) (len : ℕ) (ranges : Ranges) → ArePending deeds → DoesAll (in_order deeds) old later
        → file_of path deeds ≡ Some (len, ranges) → IsReshaped path len ranges old later }
    ensures others { (deeds : List PlainDeed) (old later : Disk) (path : Path) → ArePending deeds → DoesAll (in_order deeds) old later
        → file_of path deeds ≡ None → node_at later path ≡ node_at old path }
{}

/// With a cut that waits, the file that was to be is cut, if it is as long; all else will be as it was to be. It does
/// nothing.
pub fn cutting_what_waits()
    ensures { (deeds : List PlainDeed) (old later : Disk) (path : Path) (bytes : List ℕ) (len : ℕ) → ArePending deeds → ArePending (cut_in path len deeds)
        → DoesAll (in_order deeds) old later → node_at later path ≡ Some (file bytes) → len ≤ length bytes
        → (next : Disk) × DoesAll (in_order (cut_in path len deeds)) old next × IsChangedTo path (take len bytes) later next }
{}

/// With a chunk that waits, the file that was to be has it at its place and is cut, if no gap is left and the chunk is full or
/// the last one; all else will be as it was to be. It does nothing.
pub fn putting_in_what_waits()
    ensures { (deeds : List PlainDeed) (old later : Disk) (path : Path) (bytes : List ℕ) (size at : ℕ) (sealed : List ℕ) → ArePending deeds → ArePending (put_in path size at sealed deeds)
        → DoesAll (in_order deeds) old later → node_at later path ≡ Some (file bytes) → IsPlace at → length sealed ≤ sealed_length
        → at ≤ length bytes → at + length sealed ≤ size → size ≤ max (length bytes) (at + length sealed) → IsWhole size at sealed
        → (next : Disk) × DoesAll (in_order (put_in path size at sealed deeds)) old next × IsChangedTo path (take size (overwritten bytes at sealed)) later next }
{}

/// What waits is laid over a disk just as it is done on it, and leaves what the disk looks like; nothing can always wait. It
/// does nothing.
pub fn laying_what_waits()
    ensures nothing { (disk : Disk) → CanWait [] disk }
    ensures alone { (deeds : List PlainDeed) (old later : Disk) → ArePending deeds → DoesAll (in_order deeds) old later → later ≡ laid deeds old }
    ensures tree { (deeds : List PlainDeed) (disk : Disk) → CanWait deeds disk → IsTree disk → IsTree (laid deeds disk) }
    ensures alike { (deeds : List PlainDeed) (disk : Disk) → CanWait deeds disk → LookAlike disk (laid deeds disk) }
{}
