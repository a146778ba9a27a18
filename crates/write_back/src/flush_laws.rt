//! Laws of flushed writes, for contracts alone.

ghost use Rattle.std.specs.Prelude.{List};
ghost use Rattle.outside.specs.Disk.{Disk};
ghost use Rattle.outside.specs.Images.{Log, now};
ghost use Rattle.deeds.specs.Deeds.{PlainDeed};
ghost use Rattle.pending_files.specs.Laid.{laid, CanWait, LookAlike};
ghost use Rattle.chunk_journal.specs.Journal.{IsAlike, HasCommitted};

/// Once what waited is committed, the disk is what reads gave before, beside the journal's files; and it looks like the disk over
/// which it waited, since only the bytes of files are other. It does nothing.
pub fn flushed_disks()
    ensures alike { (deeds : List PlainDeed) (old new : Log) → CanWait deeds (now old) → HasCommitted deeds old new → IsAlike (laid deeds (now old)) (now new) }
    ensures outlines { (deeds : List PlainDeed) (disk new : Disk) → CanWait deeds disk → IsAlike (laid deeds disk) new → LookAlike disk new }
{}
