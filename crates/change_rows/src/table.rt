// Scripts of requests, as tables have them.

ghost use Rattle.std.specs.Prelude.{IfOk};
ghost use Rattle.tree_model.specs.Asked.{CanAsk};

use crate::beside::{Deed, Meddling};
use crate::error::RunErr;
use outside::Folder;
use outside_mem::MemFolder;
use std::alloc::Global;
use tree_model::{Request, StatChange};
use vault_path::VaultPath;

// Most bytes of a write.
const MOST_WRITTEN: usize = 65537;

// The mode OWRITE with OTRUNC (open(5)).
const TRUNCATING: u8 = 0x11;

// Most times that a text is repeated.
const MOST_TIMES: usize = 1 << 16;

// An entry of the host folder in which a script begins: a folder if it has no text.
#[derive(Clone, Copy)]
struct Entry<'a> {
    path: &'a str,
    text: Option<&'a str>,
}

// What another program does before a call of the step of a number.
#[derive(Clone, Copy)]
struct Planned<'a> {
    step: usize,
    call: u64,
    verb: &'a str,
    path: &'a str,
    argument: &'a str,
}

/// A request, and its reply in words.
#[derive(Drop)]
pub(crate) struct Step<'a> {
    verb: &'a str,
    node: u64,
    /// A name, or a number.
    argument: String,
    /// What is written, from the place that the argument is on.
    bytes: Vec<u8>,
    pub reply: &'a str,
}

/// A run of requests over a vault.
#[derive(Drop)]
pub(crate) struct Script<'a> {
    pub alloc: Global,
    pub about: &'a str,
    pub steps: Vec<Step<'a>>,
    entries: Vec<Entry<'a>>,
    planned: Vec<Planned<'a>>,
    /// Whether what waits in the end is committed.
    pub is_closed_well: bool,
    // The tree before the first request and after each.
    trees: Vec<String>,
}

fn number(field: Option<&str>) -> Result<u64, RunErr> {
    let field = field.ok_or(RunErr::Line)?;
    field.parse::<u64>().map_err(|_| RunErr::Line)
}

fn host_path(path: &str) -> Result<VaultPath, RunErr> {
    let mut whole = VaultPath::root();
    for name in path.split('/') {
        whole = whole.join(name.as_bytes()).map_err(|_| RunErr::Line)?;
    }
    Ok(whole)
}

// A text in which TEXT*N between spaces stands for N times TEXT.
fn expanded(alloc: Global, text: &str) -> Result<String, RunErr> {
    let mut whole = String::new(alloc);
    for (index, part) in text.split(' ').enumerate() {
        if index > 0 {
            whole.push_str(" ")?;
        }
        let (piece, times) = part.split_once('*').unwrap_or((part, "1"));
        let times = times.parse::<usize>().map_err(|_| RunErr::Line)?;
        if times > MOST_TIMES {
            return Err(RunErr::Line);
        }
        for _ in 0..times {
            whole.push_str(piece)?;
        }
    }
    Ok(whole)
}

fn changing<'a>(
    node: u64,
    name: Option<&'a str>,
    modified: Option<u32>,
    length: Option<u64>,
) -> Request<'a>
    ensures { CanAsk result 8192 }
{
    let change = StatChange {
        kind: None,
        device: None,
        qid: None,
        mode: None,
        accessed: None,
        modified,
        length,
        name,
        owner: None,
        group: None,
        modifier: None,
    };
    Request::Change { node, change }
}

impl<'a> Step<'a> {
    // Reads a verb, a node's number and an argument; after that of `write` there are hexadecimal
    // digits.
    fn read(alloc: Global, words: &'a str) -> Result<Step<'a>, RunErr> {
        let mut words = words.split(' ');
        Ok(Step {
            verb: words.next().ok_or(RunErr::Line)?,
            node: number(words.next())?,
            argument: expanded(alloc, words.next().unwrap_or(""))?,
            bytes: {
                let digits = expanded(alloc, words.next().unwrap_or(""))?;
                hex::decode(alloc, digits.as_str()).map_err(|_| RunErr::Line)?
            },
            reply: "",
        })
    }

    /// The request.
    pub(crate) fn request(&self) -> Result<Request<'_>, RunErr>
        ensures { IfOk result (λ request. CanAsk request 8192) }
    {
        let node = self.node;
        let name = self.argument.as_str();
        Ok(match self.verb {
            "create" | "mkdir" => Request::Create {
                node,
                name,
                is_dir: self.verb == "mkdir",
                mode: 0,
            },
            "rename" => changing(node, Some(name), None, None),
            "date" => {
                let second = name.parse::<u32>().map_err(|_| RunErr::Line)?;
                changing(node, None, Some(second), None)
            }
            "length" => changing(node, None, None, Some(number(Some(name))?)),
            "write" => Request::Write {
                node,
                at: number(Some(name))?,
                bytes: &self.bytes[..self.bytes.len().min(MOST_WRITTEN)],
            },
            "truncate" => Request::OpenNode {
                node,
                mode: TRUNCATING,
            },
            "remove" => Request::Remove { node },
            "stat" => Request::StatOf { node },
            "sync" => Request::Sync { node },
            _ => return Err(RunErr::Line),
        })
    }

    /// Whether no stop undoes it once it is done.
    pub(crate) fn is_stable(&self) -> bool {
        !matches!(self.verb, "date" | "write" | "truncate" | "stat")
    }
}

impl<'a> Script<'a> {
    fn new(alloc: Global, about: &'a str) -> Script<'a> {
        Script {
            alloc,
            about,
            steps: Vec::new(alloc),
            entries: Vec::new(alloc),
            planned: Vec::new(alloc),
            is_closed_well: true,
            trees: Vec::new(alloc),
        }
    }

    fn read_line(&mut self, key: &str, value: &'a str) -> Result<(), RunErr> {
        match key {
            "dir" | "text" => {
                let (path, text) = value.split_once(' ').unwrap_or((value, ""));
                let text = if key == "dir" { None } else { Some(text) };
                self.entries.push(Entry { path, text })?;
            }
            ">" => self.steps.push(Step::read(self.alloc, value)?)?,
            "<" => self.steps.last_mut().ok_or(RunErr::Line)?.reply = value,
            "=" => self.trees.push(expanded(self.alloc, value)?)?,
            "!" => {
                let mut words = value.split(' ');
                self.planned.push(Planned {
                    step: self.steps.len(),
                    call: number(words.next())?,
                    verb: words.next().ok_or(RunErr::Line)?,
                    path: words.next().ok_or(RunErr::Line)?,
                    argument: words.next().unwrap_or(""),
                })?;
            }
            "closing" => self.is_closed_well = false,
            _ => return Err(RunErr::Line),
        }
        Ok(())
    }

    /// The host folder in which it begins, which is on the disk.
    pub(crate) fn folder(&self) -> Result<MemFolder, RunErr> {
        let mut folder = MemFolder::new(self.alloc)?;
        for entry in &self.entries {
            let path = host_path(entry.path)?;
            match entry.text {
                None => folder.make_dir(&path)?,
                Some(text) => folder.put(&path, text.as_bytes())?,
            }
        }
        folder.sync()?;
        Ok(folder)
    }

    /// Before which requests another program changes the folder.
    pub(crate) fn meddled_steps(&self) -> Result<Vec<usize>, RunErr> {
        let mut steps = Vec::new(self.alloc);
        for planned in &self.planned {
            steps.push(planned.step)?;
        }
        Ok(steps)
    }

    /// The first deeds of another program, if the calls of their requests begin with these, the last one first.
    pub(crate) fn meddlings(&self, begins: &[u64]) -> Result<Vec<Meddling>, RunErr> {
        let mut meddlings = Vec::new(self.alloc);
        for (planned, begin) in self.planned.iter().zip(begins).rev() {
            meddlings.push(Meddling {
                call: begin.saturating_add(planned.call),
                path: host_path(planned.path)?,
                deed: match planned.verb {
                    "remove" => Deed::Remove,
                    "cut" => Deed::Cut(number(Some(planned.argument))?),
                    "put" => Deed::Put(expanded(self.alloc, planned.argument)?),
                    _ => return Err(RunErr::Line),
                },
            })?;
        }
        Ok(meddlings)
    }

    /// A tree is the one after some number of requests, `least` to `most`.
    pub(crate) fn check_tree(&self, least: usize, most: usize, found: &str) -> Result<(), RunErr> {
        for tree in self.trees.iter().take(most.saturating_add(1)).skip(least) {
            if tree.as_str() == found {
                return Ok(());
            }
        }
        Err(RunErr::Wrong(format!(in self.alloc;
            "after {least} to {most} requests the tree is \"{found}\""
        )?))
    }
}

/// The scripts of a table.
pub(crate) fn read_scripts(alloc: Global, table: &str) -> Result<Vec<Script<'_>>, RunErr> {
    let mut scripts: Vec<Script<'_>> = Vec::new(alloc);
    for line in table.lines() {
        let (key, value) = line.split_once(' ').unwrap_or((line, ""));
        if key == "vault" {
            scripts.push(Script::new(alloc, value))?;
        } else if key != "#" && !key.is_empty() {
            let script = scripts.last_mut().ok_or(RunErr::Line)?;
            script.read_line(key, value)?;
        }
    }
    Ok(scripts)
}
