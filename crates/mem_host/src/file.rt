ghost use Rattle.std.specs.Prelude.{◌≡◌, ◌≤◌, [], ◌∷◌, length, IfOk, OnOk, OnErr};
ghost use Rattle.outside.specs.Changes.{overwritten};
ghost use Rattle.host_calls.specs.Bytes.{Wrote, Cut, MayHold};
ghost use Rattle.host_calls.specs.Story.{bytes_of};
ghost use Rattle.mem_host.specs.Steps.{file_step_of};
ghost use Rattle.mem_host.specs.Cuts.{IsLeftOrNot};

use crate::choices::{Choices, Leaves};
use std::alloc::{AllocError, Global};
use std::marker::Model;

// The byte that a power cut leaves where bytes were written, if it is to leave others.
const FILL: u8 = 0xA5;

/// A step that changes a file's bytes. Clauses see it by `file_step_of`.
#[derive(Drop)]
pub enum MemFileStep {
    Wrote(u64, Vec<u8>),
    Cut(u64),
}

impl MemFileStep {
    // The bytes that a power cut leaves of a step, if these were left of those before.
    fn left(&self, alloc: Global, old: Vec<u8>, leaves: Leaves) -> Result<Vec<u8>, AllocError>
        ensures { IfOk result (λ new. IsLeftOrNot (file_step_of self.now) old.items new.items) }
    {
        match self {
            MemFileStep::Wrote(at, bytes) => write_left(alloc, old, *at, bytes, leaves),
            MemFileStep::Cut(len) => Ok(cut_left(old, *len, leaves)),
        }
    }
}

/// A file: its bytes at its last flush, and the steps since. Clauses see the steps with the newest first.
#[derive(Drop)]
pub struct MemFile {
    lasting: Vec<u8>,
    // The oldest first.
    steps: Vec<MemFileStep>,
    // What the steps made of the bytes.
    bytes: Vec<u8>,
}

impl Model for MemFile {
    ghost use Rattle.std.specs.Prelude.{◌≡◌};
    ghost use Rattle.host_calls.specs.Bytes.{Filed, bytes_after};
    ghost use Rattle.mem_host.specs.Codes.{coded_filed};

    ghost Value = { Filed };

    ghost coded = { coded_filed };

    ghost use Rattle.mem_host.specs.Steps.{file_steps_of};

    ghost view = { λ a. record { lasting = a.lasting.items; steps = file_steps_of a.steps.items } };

    ghost invariant = { λ a. a.bytes.items ≡ bytes_after a.lasting.items (file_steps_of a.steps.items) };
}

impl MemFile {
    /// An empty file, which isn't on the disk yet.
    pub fn empty(alloc: Global) -> MemFile
        ensures { result ≡ record { lasting = []; steps = [] } }
    {
        MemFile {
            lasting: Vec::new(alloc),
            steps: Vec::new(alloc),
            bytes: Vec::new(alloc),
        }
    }

    /// A file of these bytes, which are on the disk.
    pub fn lasting(alloc: Global, bytes: Vec<u8>) -> Result<MemFile, AllocError>
        ensures { IfOk result (λ file. file ≡ record { lasting = bytes.items; steps = [] }) }
    {
        Ok(MemFile {
            lasting: Vec::from_slice(alloc, &bytes)?,
            steps: Vec::new(alloc),
            bytes,
        })
    }

    /// Its bytes.
    pub fn bytes(&self) -> &[u8]
        ensures { result.now ≡ bytes_of self.now }
    {
        &self.bytes
    }

    /// Writes bytes over its own from a place on. After refused memory all is as it was.
    pub fn write(&mut self, alloc: Global, at: u64, bytes: &[u8]) -> Result<(), AllocError>
        requires { at ≤ length (bytes_of self.old) }
        ensures ok { OnOk result (self.new ≡ record self.old { steps = Wrote at bytes.now ∷ self.old.steps }) }
        ensures err { OnErr result (self.new ≡ self.old) }
    {
        let made = overwritten(alloc, &self.bytes, at as usize, bytes)?;
        let kept = Vec::from_slice(alloc, bytes)?;
        self.steps.push(MemFileStep::Wrote(at, kept))?;
        self.bytes = made;
        Ok(())
    }

    /// Cuts it to a length. After refused memory all is as it was.
    pub fn cut(&mut self, len: u64) -> Result<(), AllocError>
        requires { len ≤ length (bytes_of self.old) }
        ensures ok { OnOk result (self.new ≡ record self.old { steps = Cut len ∷ self.old.steps }) }
        ensures err { OnErr result (self.new ≡ self.old) }
    {
        self.steps.push(MemFileStep::Cut(len))?;
        self.bytes.truncate(len as usize);
        Ok(())
    }

    /// Brings its bytes to the disk. After refused memory all is as it was.
    pub fn flush(&mut self, alloc: Global) -> Result<(), AllocError>
        ensures ok { OnOk result (self.new ≡ record { lasting = bytes_of self.old; steps = [] }) }
        ensures err { OnErr result (self.new ≡ self.old) }
    {
        let lasting = Vec::from_slice(alloc, &self.bytes)?;
        self.lasting = lasting;
        self.steps.clear();
        Ok(())
    }

    /// The bytes that a power cut leaves: of each step what is chosen.
    pub fn left(&self, alloc: Global, choices: &mut Choices) -> Result<Vec<u8>, AllocError>
        ensures { IfOk result (λ bytes. MayHold self.now.lasting self.now.steps bytes.items) }
    {
        let mut bytes = Vec::from_slice(alloc, &self.lasting)?;
        for step in &self.steps {
            bytes = step.left(alloc, bytes, choices.next())?;
        }
        Ok(bytes)
    }
}

// The bytes that a power cut leaves of a write.
fn write_left(
    alloc: Global,
    old: Vec<u8>,
    at: u64,
    bytes: &[u8],
    leaves: Leaves,
) -> Result<Vec<u8>, AllocError>
    ensures { IfOk result (λ new. IsLeftOrNot (Wrote at bytes.now) old.items new.items) }
{
    if (old.len() as u64) < at {
        return Ok(old);
    }
    match leaves {
        Leaves::Nothing => Ok(old),
        Leaves::Half => overwritten(alloc, &old, at as usize, &bytes[..bytes.len() / 2]),
        Leaves::Filled => {
            let fills = vec![in alloc; FILL; bytes.len()]?;
            overwritten(alloc, &old, at as usize, &fills)
        }
        Leaves::All => overwritten(alloc, &old, at as usize, bytes),
    }
}

// The bytes that a power cut leaves of a cut.
fn cut_left(mut old: Vec<u8>, len: u64, leaves: Leaves) -> Vec<u8>
    ensures { IsLeftOrNot (Cut len) old.items result.items }
{
    let count = old.len();
    if count as u64 <= len {
        return old;
    }
    let past = count - len as usize;
    match leaves {
        Leaves::Nothing => {}
        Leaves::Half => old.truncate(count - past / 2),
        Leaves::Filled => old.truncate(count - past / 2),
        Leaves::All => old.truncate(count - past),
    }
    old
}

// The bytes with others written over them from an index on.
fn overwritten(alloc: Global, old: &[u8], at: usize, bytes: &[u8]) -> Result<Vec<u8>, AllocError>
    requires { at ≤ length old.now }
    ensures { IfOk result (λ new. new.items ≡ overwritten old.now at bytes.now) }
{
    let mut new = Vec::from_slice(alloc, &old[..at])?;
    new.extend_from_slice(bytes)?;
    let end = old.len().min(at + bytes.len());
    new.extend_from_slice(&old[end..])?;
    Ok(new)
}
