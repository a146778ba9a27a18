ghost use Rattle.std.specs.Prelude.{◌≡◌, ◌≤◌, ◌<◌, length, None, IfErr, OnOk, OnErr};
ghost use Rattle.std.specs.Option.{option_map};
ghost use Rattle.outside.specs.Calls.{Changes, Rose, Told};
ghost use Rattle.outside.specs.Images.{disk_in};
ghost use Rattle.tree_model.specs.Asked.{PlainRequest, write, count, write_limit};
ghost use Rattle.tree_model.specs.Step.{Answer, says};
ghost use Rattle.tree_loading.specs.Format.{sealing_of};
ghost use Rattle.content_writer.specs.Sealing.{GoesOn};
ghost use Rattle.node_changes.specs.Changed.{IsAtRest, HasChanged, MayHaveChanged, MayRefuse};
ghost use Rattle.node_changes.specs.Causes.{ErrCause, IfBroken, IfRefused, IsUnchanged};
ghost use Rattle.file_changes.specs.Causes.{ContentCause, write_refusal};
ghost use Rattle.request_checks.specs.Files.{IsResizable, IsWritable};
ghost use Rattle.file_changes.specs.Rewritten.{HasRewritten, MayHaveRewritten};
ghost use Rattle.file_changes.specs.Steps.{IsResizing};
ghost use Rattle.file_changes.specs.Waiting.{HasPut, HasWritten, IsAtRestOver, IsNotFlushed};
ghost use Rattle.pending_files.specs.Laid.{laid_log};

use crate::file::sealed_file;
use crate::room::FileChanges;
use chunk_journal::Journal;
use content_writer::WriteErr;
use node_changes::{ChangeErr, VaultTree};
use outside::{Entropy, Folder};
use tree_model::Refusal;
use write_back::{FlushErr, WriteBack, deeds_rewrite};

impl FileChanges {
    /// Writes 1 to 65,537 bytes into the file of a number from byte `at` on, at a second since 1970-01-01. A gap of at most
    /// 1,048,576 bytes between the file's end and `at` is filled with zeros, and the file has at most 2^40 bytes afterwards. What is
    /// written waits; if there is no room for it, what waited before is committed. It takes no memory.
    ///
    /// It is refused as `Damaged` if the file's header or a chunk that keeps a byte doesn't open, as `DeviceFault` if the folder
    /// failed in a read or another program changed a file for which something waited, as `RandomFault` if the random source
    /// failed. After `Broken`, which is of what waited before, the folder's count of faults rose, and the tree in memory is the
    /// one without the write.
    pub fn write<D: Folder, E: Entropy>(
        &mut self,
        tree: &mut VaultTree,
        back: &mut WriteBack<D>,
        entropy: &mut E,
        number: u64,
        at: u64,
        bytes: &[u8],
        now: u32,
    ) -> Result<(), ChangeErr>
        requires rest { Told (D.log back.old.folder) (IsAtRestOver (sealing_of tree.old.keys) tree.old.live tree.old.claims back.old.waiting) }
        requires some { 0 < length bytes.now }
        requires few { length bytes.now ≤ write_limit }
        requires file { IsWritable tree.old.live number at (length bytes.now) }
        ensures put { OnOk result (Changes (D.log back.old.folder) (D.log back.new.folder) (HasPut (sealing_of tree.old.keys)
            (write number at bytes.now) now (says (count (length bytes.now))) tree.old.live tree.new.live tree.old.claims tree.new.claims
            back.old.waiting back.new.waiting)) }
        ensures broken { IfErr result (λ error. IfBroken error (Changes (D.log back.old.folder) (D.log back.new.folder)
            (IsNotFlushed (sealing_of tree.old.keys) (write number at bytes.now) tree.old.live tree.old.claims back.old.waiting))) }
        ensures refused { IfErr result (λ error. IfRefused error (λ refusal. Told (disk_in (option_map (laid_log back.old.waiting) (D.log back.old.folder)))
            (λ d. MayRefuse (sealing_of tree.old.keys) (write number at bytes.now) now None refusal d tree.old.live tree.old.claims))) }
        ensures unchanged { IfErr result (λ error. IfRefused error (λ refusal.
            IsUnchanged tree.old.live tree.new.live tree.old.claims tree.new.claims (D.log back.old.folder) (D.log back.new.folder))) }
        ensures waiting { IfErr result (λ error. IfRefused error (λ refusal. Told (D.log back.old.folder) (λ log. back.new.waiting ≡ back.old.waiting))) }
        ensures same_live { OnErr result (tree.new.live ≡ tree.old.live) }
        ensures same_claims { tree.new.claims ≡ tree.old.claims }
        ensures rest_after { OnOk result (Told (D.log back.new.folder)
            (IsAtRestOver (sealing_of tree.new.keys) tree.new.live tree.new.claims back.new.waiting)) }
        ensures cause { IfErr result (ErrCause (write number at bytes.now) (Rose (D.faults back.old.folder) (D.faults back.new.folder))
            (Rose (E.faults entropy.old) (E.faults entropy.new))) }
        ensures own { IfErr result (λ error. IfRefused error (ContentCause (Rose (D.faults back.old.folder) (D.faults back.new.folder))
            (Rose (E.faults entropy.old) (E.faults entropy.new)))) }
        ensures drawn { Changes (E.drawn entropy.old) (E.drawn entropy.new) GoesOn }
        ensures nonces { OnOk result (Changes (D.log back.old.folder) (D.log back.new.folder) (HasWritten (sealing_of tree.old.keys)
            (write number at bytes.now) now (says (count (length bytes.now))) tree.old.live tree.new.live tree.old.claims tree.new.claims
            back.old.waiting back.new.waiting (E.drawn entropy.old) (E.drawn entropy.new))) }
        ensures later { D.faults back.old.folder ≤ D.faults back.new.folder }
        ensures entropy { E.faults entropy.old ≤ E.faults entropy.new }
        ensures keys { tree.new.keys ≡ tree.old.keys }
        ensures threshold { tree.new.threshold ≡ tree.old.threshold }
    {
        // for its clause: the length of a key, by which a content's length is known
        tree.keys().have_32_bytes();
        let file = sealed_file(tree, number);
        match self
            .writer
            .seal_write(back, tree.keys(), &file, at, bytes, entropy)
        {
            Ok(()) => {
                if back.keep_header(&file.path).is_err() {
                    return Err(ChangeErr::Refused(Refusal::DeviceFault));
                }
                match self.put(tree, back, &file, number, now) {
                    Ok(()) => Ok(()),
                    Err(FlushErr::Device) => Err(ChangeErr::Broken),
                    Err(FlushErr::Dropped) => Err(ChangeErr::Refused(Refusal::DeviceFault)),
                }
            },
            Err(cause) => Err(ChangeErr::Refused(refusal_of(cause))),
        }
    }

    /// Gives the file of a number the length 0, at a second since 1970-01-01. That waits as a write does; if there is no room for
    /// it, what waited before is committed. It takes no memory.
    ///
    /// It is refused as `Damaged` if the file's header doesn't open, as `DeviceFault` if the folder failed in a read or another
    /// program changed a file for which something waited, as `RandomFault` if the random source failed. After `Broken`, which is
    /// of what waited before, the folder's count of faults rose, and the tree in memory is the one with the old length.
    pub fn truncate<D: Folder, E: Entropy>(
        &mut self,
        tree: &mut VaultTree,
        back: &mut WriteBack<D>,
        entropy: &mut E,
        number: u64,
        now: u32,
    ) -> Result<(), ChangeErr>
        requires rest { Told (D.log back.old.folder) (IsAtRestOver (sealing_of tree.old.keys) tree.old.live tree.old.claims back.old.waiting) }
        requires file { IsResizable tree.old.live number 0 }
        // of each request that empties the file so
        ensures put { (request : PlainRequest) (answer : Answer)
            → IsResizing (sealing_of tree.old.keys) tree.old.live tree.old.claims number 0 None now request answer
            → OnOk result (Changes (D.log back.old.folder) (D.log back.new.folder) (HasPut (sealing_of tree.old.keys)
            request now answer tree.old.live tree.new.live tree.old.claims tree.new.claims back.old.waiting back.new.waiting)) }
        ensures broken { (request : PlainRequest) (answer : Answer)
            → IsResizing (sealing_of tree.old.keys) tree.old.live tree.old.claims number 0 None now request answer
            → IfErr result (λ error. IfBroken error (Changes (D.log back.old.folder) (D.log back.new.folder)
            (IsNotFlushed (sealing_of tree.old.keys) request tree.old.live tree.old.claims back.old.waiting))) }
        ensures refused { (request : PlainRequest) (answer : Answer)
            → IsResizing (sealing_of tree.old.keys) tree.old.live tree.old.claims number 0 None now request answer
            → IfErr result (λ error. IfRefused error (λ refusal. Told (disk_in (option_map (laid_log back.old.waiting) (D.log back.old.folder)))
            (λ d. MayRefuse (sealing_of tree.old.keys) request now None refusal d tree.old.live tree.old.claims))) }
        ensures unchanged { IfErr result (λ error. IfRefused error (λ refusal.
            IsUnchanged tree.old.live tree.new.live tree.old.claims tree.new.claims (D.log back.old.folder) (D.log back.new.folder))) }
        ensures waiting { IfErr result (λ error. IfRefused error (λ refusal. Told (D.log back.old.folder) (λ log. back.new.waiting ≡ back.old.waiting))) }
        ensures same_live { OnErr result (tree.new.live ≡ tree.old.live) }
        ensures same_claims { tree.new.claims ≡ tree.old.claims }
        ensures rest_after { OnOk result (Told (D.log back.new.folder)
            (IsAtRestOver (sealing_of tree.new.keys) tree.new.live tree.new.claims back.new.waiting)) }
        ensures cause { (request : PlainRequest) → IfErr result (ErrCause request (Rose (D.faults back.old.folder) (D.faults back.new.folder))
            (Rose (E.faults entropy.old) (E.faults entropy.new))) }
        ensures own { IfErr result (λ error. IfRefused error (ContentCause (Rose (D.faults back.old.folder) (D.faults back.new.folder))
            (Rose (E.faults entropy.old) (E.faults entropy.new)))) }
        ensures drawn { Changes (E.drawn entropy.old) (E.drawn entropy.new) GoesOn }
        ensures nonces { (request : PlainRequest) (answer : Answer)
            → IsResizing (sealing_of tree.old.keys) tree.old.live tree.old.claims number 0 None now request answer
            → OnOk result (Changes (D.log back.old.folder) (D.log back.new.folder) (HasWritten (sealing_of tree.old.keys)
            request now answer tree.old.live tree.new.live tree.old.claims tree.new.claims
            back.old.waiting back.new.waiting (E.drawn entropy.old) (E.drawn entropy.new))) }
        ensures later { D.faults back.old.folder ≤ D.faults back.new.folder }
        ensures entropy { E.faults entropy.old ≤ E.faults entropy.new }
        ensures keys { tree.new.keys ≡ tree.old.keys }
        ensures threshold { tree.new.threshold ≡ tree.old.threshold }
    {
        let file = sealed_file(tree, number);
        match self
            .writer
            .seal_length(back, tree.keys(), &file, 0, entropy)
        {
            Ok(()) => {
                if back.keep_header(&file.path).is_err() {
                    return Err(ChangeErr::Refused(Refusal::DeviceFault));
                }
                match self.put(tree, back, &file, number, now) {
                    Ok(()) => Ok(()),
                    Err(FlushErr::Device) => Err(ChangeErr::Broken),
                    Err(FlushErr::Dropped) => Err(ChangeErr::Refused(Refusal::DeviceFault)),
                }
            },
            Err(cause) => Err(ChangeErr::Refused(refusal_of(cause))),
        }
    }

    /// Gives the file of a number another length in bytes, at a second since 1970-01-01, by a cut or by zeros after its end, of
    /// which there are at most 1,048,576; it has at most 2^40 bytes afterwards. `modified` is an mtime that is set besides. It
    /// takes no memory.
    ///
    /// It is refused as `Damaged` if the file's header or a chunk of which a part is kept doesn't open, as `DeviceFault` if the
    /// folder failed in a read or another program took the file away or cut it meanwhile, as `RandomFault` if the random source
    /// failed. After `Broken` the folder's count of faults rose, and the tree in memory is the one with the other length.
    pub fn resize<D: Folder, E: Entropy>(
        &mut self,
        tree: &mut VaultTree,
        journal: &mut Journal<D>,
        entropy: &mut E,
        number: u64,
        len: u64,
        modified: Option<u32>,
        now: u32,
    ) -> Result<(), ChangeErr>
        requires rest { Told (D.log journal.old) (IsAtRest (sealing_of tree.old.keys) tree.old.live tree.old.claims) }
        requires file { IsResizable tree.old.live number len }
        // of each request that resizes the file so
        ensures changed { (request : PlainRequest) (answer : Answer)
            → IsResizing (sealing_of tree.old.keys) tree.old.live tree.old.claims number len modified now request answer
            → OnOk result (Changes (D.log journal.old) (D.log journal.new) (HasChanged (sealing_of tree.old.keys)
            request now answer tree.old.live tree.new.live tree.old.claims tree.new.claims)) }
        ensures broken { (request : PlainRequest) (answer : Answer)
            → IsResizing (sealing_of tree.old.keys) tree.old.live tree.old.claims number len modified now request answer
            → IfErr result (λ error. IfBroken error (Changes (D.log journal.old) (D.log journal.new) (MayHaveChanged (sealing_of tree.old.keys)
            request now tree.old.live tree.new.live tree.old.claims tree.new.claims))) }
        ensures refused { (request : PlainRequest) (answer : Answer)
            → IsResizing (sealing_of tree.old.keys) tree.old.live tree.old.claims number len modified now request answer
            → IfErr result (λ error. IfRefused error (λ refusal. Told (disk_in (D.log journal.old))
            (λ d. MayRefuse (sealing_of tree.old.keys) request now None refusal d tree.old.live tree.old.claims))) }
        ensures unchanged { IfErr result (λ error. IfRefused error (λ refusal.
            IsUnchanged tree.old.live tree.new.live tree.old.claims tree.new.claims (D.log journal.old) (D.log journal.new))) }
        ensures cause { (request : PlainRequest) → IfErr result (ErrCause request (Rose (D.faults journal.old) (D.faults journal.new))
            (Rose (E.faults entropy.old) (E.faults entropy.new))) }
        ensures own { IfErr result (λ error. IfRefused error (ContentCause (Rose (D.faults journal.old) (D.faults journal.new))
            (Rose (E.faults entropy.old) (E.faults entropy.new)))) }
        ensures drawn { Changes (E.drawn entropy.old) (E.drawn entropy.new) GoesOn }
        ensures nonces { (request : PlainRequest) (answer : Answer)
            → IsResizing (sealing_of tree.old.keys) tree.old.live tree.old.claims number len modified now request answer
            → OnOk result (Changes (D.log journal.old) (D.log journal.new) (HasRewritten (sealing_of tree.old.keys)
            request now answer tree.old.live tree.new.live tree.old.claims tree.new.claims (E.drawn entropy.old) (E.drawn entropy.new))) }
        ensures nonces_broken { (request : PlainRequest) (answer : Answer)
            → IsResizing (sealing_of tree.old.keys) tree.old.live tree.old.claims number len modified now request answer
            → IfErr result (λ error. IfBroken error (Changes (D.log journal.old) (D.log journal.new) (MayHaveRewritten (sealing_of tree.old.keys)
            request now tree.old.live tree.new.live tree.old.claims tree.new.claims (E.drawn entropy.old) (E.drawn entropy.new)))) }
        ensures later { D.faults journal.old ≤ D.faults journal.new }
        ensures entropy { E.faults entropy.old ≤ E.faults entropy.new }
        ensures keys { tree.new.keys ≡ tree.old.keys }
        ensures threshold { tree.new.threshold ≡ tree.old.threshold }
    {
        // for its clause: what the deeds do
        deeds_rewrite();
        let file = sealed_file(tree, number);
        match self
            .writer
            .seal_length(journal, tree.keys(), &file, len, entropy)
        {
            Ok(()) => match self.commit(tree, journal, &file, number, modified, now) {
                Ok(()) => Ok(()),
                Err(FlushErr::Device) => Err(ChangeErr::Broken),
                Err(FlushErr::Dropped) => Err(ChangeErr::Refused(Refusal::DeviceFault)),
            },
            Err(cause) => Err(ChangeErr::Refused(refusal_of(cause))),
        }
    }
}

// The refusal of a change whose chunks aren't sealed.
fn refusal_of(cause: WriteErr) -> Refusal
    ensures { result ≡ write_refusal cause }
{
    match cause {
        WriteErr::Damaged => Refusal::Damaged,
        WriteErr::Device => Refusal::DeviceFault,
        WriteErr::Random => Refusal::RandomFault,
    }
}
