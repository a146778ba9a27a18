ghost use Rattle.std.specs.Prelude.{◌≡◌, ◌≤◌, ◌+◌, ◌*◌, ℕ, min, length, take, IfOk, OnOk};
ghost use Rattle.std.specs.List.{AllByRecursion};
ghost use Rattle.outside.specs.Disk.{Disk};
ghost use Rattle.outside.specs.Images.{now, IsSound};
ghost use Rattle.outside_mem.specs.Held.{bare};
ghost use Rattle.outside_mem.specs.Kept.{change_of, all_calls, disk_by, CanRepeat, left_by, IsStopped};
ghost use Rattle.outside_mem.specs.Pictures.{changes_since, synced_disk, pictured, AreTried, ArePictures};
ghost use Rattle.outside_mem.specs.Choices.{left_of, left_of_call, leaves_at, chosen, all_choices};

use crate::change::{MemCall, MemChange};
use crate::folder::MemFolder;
use std::alloc::{AllocError, Global};

// What an image has of a change.
#[derive(Clone, Copy)]
enum Leaves {
    Nothing,
    All,
    Filled,
}

// What an image has of each change since the last sync: the same of each, or of the one with so many older ones something else.
#[derive(Clone, Copy)]
enum Choice {
    Each(Leaves),
    One(usize, Leaves, Leaves),
}

impl Choice {
    // What it has of the change with so many older ones.
    fn leaves(self, age: usize) -> Leaves
        ensures { result ≡ leaves_at self age }
    {
        match self {
            Choice::Each(leaves) => leaves,
            Choice::One(at, own, others) => { if age == at { own } else { others } }
        }
    }
}

impl MemFolder {
    /// At most `most` folders, each of which begins with what a stop may leave of this one now, and has no calls. The first
    /// has nothing of what was done since the last sync, the second all of it, and the third all with 0xA5 in place of the
    /// bytes. Then there are three for each call since, from the newest on: all but it, it alone, and all with 0xA5 in its
    /// place. A call that broke off counts whole, and a change that can't be made if others are left out is left out too.
    pub fn images(&self, most: usize) -> Result<Vec<MemFolder>, AllocError>
        ensures few { IfOk result (λ images. length images.items ≤ most) }
        ensures stopped { IfOk result (λ images. AllByRecursion (IsStopped self.now.log) images.items) }
        ensures count { IfOk result (λ images. length images.items ≡ min most (3 * length (changes_since self.now.log.calls) + 3)) }
        ensures listed { IfOk result (λ images.
            ArePictures (synced_disk self.now.log.start self.now.log.calls)
            (take most (pictured (changes_since self.now.log.calls))) images.items) }
    {
        let calls = self.kept_calls();
        let choices = choices_of(self.alloc(), calls.len() - synced_len(calls))?;
        let count = most.min(choices.len());
        let mut images = Vec::new(self.alloc());
        for number in 0..count {
            images.push(self.image(choices[number])?)?;
        }
        Ok(images)
    }

    // The image of a choice.
    fn image(&self, choice: Choice) -> Result<MemFolder, AllocError>
        ensures stopped { IfOk result (λ image. IsStopped self.now.log image) }
        ensures chosen { IfOk result (λ image.
            AreTried (chosen choice (changes_since self.now.log.calls))
            (synced_disk self.now.log.start self.now.log.calls) (now image.log)) }
    {
        let calls = self.kept_calls();
        let first = self.first_calls();
        let synced = synced_len(calls);
        let mut image = replayed(self.alloc(), first, &calls[..synced])?;
        for index in synced..calls.len() {
            let leaves = choice.leaves(index - synced);
            image = with_call(self.alloc(), image, &calls[index], leaves)?;
        }
        Ok(image.restarted())
    }

    // Makes calls again.
    fn replay(&mut self, alloc: Global, calls: &[MemCall]) -> Result<(), AllocError>
        requires { IsSound (now self.old.log) (all_calls (now self.old.log) calls.now) }
        ensures start { OnOk result (self.new.log.start ≡ self.old.log.start) }
        ensures ok { OnOk result (now self.new.log ≡ disk_by (now self.old.log) calls.now) }
    {
        for call in calls {
            self.repeat(alloc, call)?;
        }
        Ok(())
    }

    // Makes a call again, or the part of it that was done.
    fn repeat(&mut self, alloc: Global, call: &MemCall) -> Result<(), AllocError>
        requires { CanRepeat (now self.old.log) call.now }
        ensures start { OnOk result (self.new.log.start ≡ self.old.log.start) }
        ensures ok { OnOk result (now self.new.log ≡ left_by call.now (now self.old.log)) }
    {
        match call {
            MemCall::Did(change) => self.make(change.copied(alloc)?),
            MemCall::Broke(change) => self.make(change.halved(alloc)?),
            MemCall::Synced => Ok(()),
        }
    }
}

// The folder that calls leave of the empty one.
fn replayed(alloc: Global, first: &[MemCall], calls: &[MemCall]) -> Result<MemFolder, AllocError>
    requires first { IsSound bare (all_calls bare first.now) }
    requires calls { IsSound (disk_by bare first.now) (all_calls (disk_by bare first.now) calls.now) }
    ensures start { IfOk result (λ folder. folder.log.start ≡ bare) }
    ensures disk { IfOk result (λ folder. now folder.log ≡ disk_by (disk_by bare first.now) calls.now) }
{
    let mut folder = MemFolder::new(alloc)?;
    folder.replay(alloc, first)?;
    folder.replay(alloc, calls)?;
    Ok(folder)
}

// An image with what it has of one call more.
fn with_call(
    alloc: Global,
    image: MemFolder,
    call: &MemCall,
    leaves: Leaves,
) -> Result<MemFolder, AllocError>
    ensures start { IfOk result (λ left. left.log.start ≡ image.log.start) }
    ensures tried { IfOk result (λ left. AreTried (left_of_call leaves call.now) (now image.log) (now left.log)) }
{
    match call {
        MemCall::Did(change) => with_part(alloc, image, change, leaves),
        MemCall::Broke(change) => with_part(alloc, image, change, leaves),
        MemCall::Synced => Ok(image),
    }
}

// An image with what it has of one change more.
fn with_part(
    alloc: Global,
    image: MemFolder,
    change: &MemChange,
    leaves: Leaves,
) -> Result<MemFolder, AllocError>
    ensures start { IfOk result (λ left. left.log.start ≡ image.log.start) }
    ensures tried { IfOk result (λ left. AreTried (left_of leaves (change_of change.now)) (now image.log) (now left.log)) }
{
    match leaves {
        Leaves::Nothing => Ok(image),
        Leaves::All => image.with_change(change.copied(alloc)?),
        Leaves::Filled => image.with_change(change.filled(alloc)?),
    }
}

// How many calls there were up to the last sync: all since are changes.
fn synced_len(calls: &[MemCall]) -> usize
    ensures within { result ≤ length calls.now }
    ensures since { (start : Disk) (k : ℕ) → result ≤ k → k ≤ length calls.now
        → length (changes_since (all_calls start (take k calls.now))) + result ≡ k }
{
    let mut synced = 0;
    for index in 0..calls.len() {
        if let MemCall::Synced = &calls[index] {
            synced = index + 1;
        }
    }
    synced
}

// The choices of the images that are listed, of so many changes since the last sync.
fn choices_of(alloc: Global, since: usize) -> Result<Vec<Choice>, AllocError>
    ensures { IfOk result (λ choices. choices.items ≡ all_choices since) }
{
    let mut choices = Vec::new(alloc);
    choices.push(Choice::Each(Leaves::Nothing))?;
    choices.push(Choice::Each(Leaves::All))?;
    choices.push(Choice::Each(Leaves::Filled))?;
    for back in 0..since {
        let at = since - 1 - back;
        choices.push(Choice::One(at, Leaves::Nothing, Leaves::All))?;
        choices.push(Choice::One(at, Leaves::All, Leaves::Nothing))?;
        choices.push(Choice::One(at, Leaves::Filled, Leaves::All))?;
    }
    Ok(choices)
}
