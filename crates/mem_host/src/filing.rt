ghost use Rattle.std.specs.Prelude.{◌≡◌, ◌<◌, ◌≤◌, ◌+◌, ◌-◌, [], ◌∷◌, length, Some, None, MatchOption, IsSome, IfOk, OnOk, OnErr};
ghost use Rattle.std.specs.FinMap as map;
ghost use Rattle.host_calls.specs.Volume.{bytes_in, each_value};
ghost use Rattle.host_calls.specs.Bytes.{Wrote, Cut};
ghost use Rattle.host_calls.specs.Story.{bytes_of, filed_after, settled_file};
ghost use Rattle.mem_host.specs.Filing.{IsFiling, numbered};
ghost use Rattle.mem_host.specs.Cuts.{AreLeft, AreSettled};

use crate::choices::Choices;
use crate::file::MemFile;
use host_calls::Inode;
use std::alloc::{AllocError, Global};
use std::marker::Model;

// The device of all inodes.
const DEVICE: u64 = 1;

/// Files by their inodes, which are numbered. Clauses see how many there are and what each holds.
#[derive(Drop)]
pub struct MemFiling {
    files: Vec<MemFile>,
}

impl Model for MemFiling {
    ghost use Rattle.std.specs.Prelude.{length};
    ghost use Rattle.mem_host.specs.Filing.{Filing, files_from};
    ghost use Rattle.mem_host.specs.Holding.{coded_filing};

    ghost Value = { Filing };

    ghost coded = { coded_filing };

    ghost view = { λ a. record { count = length a.files.items; held = files_from 0 a.files.items } };
}

impl MemFiling {
    /// No files.
    pub fn new(alloc: Global) -> MemFiling
        ensures { result ≡ record { count = 0; held = map.empty } }
    {
        MemFiling {
            files: Vec::new(alloc),
        }
    }

    /// The file of an inode.
    pub fn find(&self, inode: Inode) -> Option<&MemFile>
        ensures { MatchOption result (map.get self.now.held inode ≡ None) (λ file. map.get self.now.held inode ≡ Some file.now) }
    {
        if inode.ino >= self.files.len() as u64 {
            return None;
        }
        if inode.dev != DEVICE {
            return None;
        }
        Some(&self.files[inode.ino as usize])
    }

    /// The bytes of a file, or none where there is no such file.
    pub fn bytes(&self, inode: Inode) -> &[u8]
        ensures { result.now ≡ bytes_in (each_value bytes_of self.now.held) inode }
    {
        match self.find(inode) {
            None => &[],
            Some(file) => file.bytes(),
        }
    }

    /// The inode of the next file.
    pub fn next_inode(&self) -> Inode
        ensures inode { result ≡ numbered self.now.count }
        ensures filing { IsFiling self.now }
    {
        Inode {
            dev: DEVICE,
            ino: self.files.len() as u64,
        }
    }

    /// A new file of these bytes. After refused memory all is as it was.
    pub fn create(&mut self, alloc: Global, bytes: &[u8]) -> Result<(), AllocError>
        ensures ok { OnOk result (self.new ≡ record {
          count = self.old.count + 1;
          held = map.insert self.old.held (numbered self.old.count) (record { lasting = []; steps = Wrote 0 bytes.now ∷ [] });
        }) }
        ensures err { OnErr result (self.new ≡ self.old) }
    {
        let mut file = MemFile::empty(alloc);
        file.write(alloc, 0, bytes)?;
        self.files.push(file)?;
        Ok(())
    }

    /// Forgets the newest file.
    pub fn forget_newest(&mut self)
        requires { 0 < self.old.count }
        ensures { self.new ≡ record {
          count = self.old.count - 1;
          held = map.remove self.old.held (numbered (self.old.count - 1));
        } }
    {
        self.files.pop();
    }

    /// Writes bytes over a file's own from a place on. After refused memory all is as it was.
    pub fn write(
        &mut self,
        alloc: Global,
        inode: Inode,
        at: u64,
        bytes: &[u8],
    ) -> Result<(), AllocError>
        requires within { at ≤ length (bytes_in (each_value bytes_of self.old.held) inode) }
        requires known { IsSome (map.get self.old.held inode) }
        ensures ok { OnOk result (self.new ≡ record self.old {
          held = map.insert self.old.held inode (filed_after (Wrote at bytes.now ∷ []) (map.get self.old.held inode));
        }) }
        ensures err { OnErr result (self.new ≡ self.old) }
    {
        let file = &mut self.files[inode.ino as usize];
        file.write(alloc, at, bytes)
    }

    /// Cuts a file to a length. After refused memory all is as it was.
    pub fn cut(&mut self, inode: Inode, len: u64) -> Result<(), AllocError>
        requires within { len ≤ length (bytes_in (each_value bytes_of self.old.held) inode) }
        requires known { IsSome (map.get self.old.held inode) }
        ensures ok { OnOk result (self.new ≡ record self.old {
          held = map.insert self.old.held inode (filed_after (Cut len ∷ []) (map.get self.old.held inode));
        }) }
        ensures err { OnErr result (self.new ≡ self.old) }
    {
        let file = &mut self.files[inode.ino as usize];
        file.cut(len)
    }

    /// Brings a file's bytes to the disk. After refused memory all is as it was.
    pub fn flush(&mut self, alloc: Global, inode: Inode) -> Result<(), AllocError>
        requires { IsSome (map.get self.old.held inode) }
        ensures ok { OnOk result (self.new ≡ record self.old {
          held = map.insert self.old.held inode (settled_file (map.get self.old.held inode));
        }) }
        ensures err { OnErr result (self.new ≡ self.old) }
    {
        let file = &mut self.files[inode.ino as usize];
        file.flush(alloc)
    }

    /// The files with the bytes that a power cut leaves: of each step what is chosen.
    pub fn left(&self, alloc: Global, choices: &mut Choices) -> Result<MemFiling, AllocError>
        ensures left { IfOk result (λ left. AreLeft self.now.held left.held) }
        ensures settled { IfOk result (λ left. AreSettled left.held) }
        ensures count { IfOk result (λ left. left.count ≡ self.now.count) }
        ensures filing { IfOk result IsFiling }
    {
        let mut files = Vec::new(alloc);
        for file in &self.files {
            let bytes = file.left(alloc, choices)?;
            files.push(MemFile::lasting(alloc, bytes)?)?;
        }
        Ok(MemFiling { files })
    }
}
