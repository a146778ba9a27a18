// The rows of a table of runs.

use crate::row::{RowErr, number, push_bytes};
use std::alloc::{AllocError, Global};

/// A client: what it sends, what it is to be sent, and which calls of its link fail.
#[derive(Drop)]
pub(crate) struct Client {
    pub sends: Vec<u8>,
    pub is_sent: Vec<u8>,
    pub failing_reads: Vec<u64>,
    pub failing_writes: Vec<u64>,
}

/// A worker: the clients that its listener is to give back, in their order, and which calls for the next one fail.
#[derive(Drop)]
pub(crate) struct Crew {
    pub clients: Vec<Client>,
    pub failing: Vec<u64>,
}

/// Which calls of an object fail.
#[derive(Drop)]
pub(crate) struct Failing {
    pub folder: Vec<u64>,
    pub secret: Vec<u64>,
    pub random: Vec<u64>,
    pub report: Vec<u64>,
}

/// A run of the program, and what it is to come to.
#[derive(Drop)]
pub(crate) struct Row<'a> {
    pub name: &'a str,
    /// The folder's parts; `=` for what the run before has left.
    pub folder: &'a str,
    pub words: &'a str,
    pub secret: Vec<u8>,
    /// How many bytes of it are left.
    pub left: u64,
    pub failing: Failing,
    pub crews: Vec<Crew>,
    pub status: u64,
    pub report: Vec<u8>,
    /// The parts that the folder then consists of, if they are others than before.
    pub holds: Option<&'a str>,
    /// Whether the folder is changed in a way that parts don't give: its bytes come from random draws.
    pub changed: bool,
    /// Whether it is run again with each call of the folder failing.
    pub each_call: bool,
    /// How many calls the folder has in the run, if that is said.
    pub calls: Option<u64>,
}

impl Client {
    /// A client that sends nothing, and is sent nothing.
    pub(crate) fn new(alloc: Global) -> Client {
        Client {
            sends: Vec::new(alloc),
            is_sent: Vec::new(alloc),
            failing_reads: Vec::new(alloc),
            failing_writes: Vec::new(alloc),
        }
    }
}

impl Crew {
    /// A worker whose listener has no link.
    pub(crate) fn new(alloc: Global) -> Crew {
        Crew {
            clients: Vec::new(alloc),
            failing: Vec::new(alloc),
        }
    }
}

impl Failing {
    fn new(alloc: Global) -> Failing {
        Failing {
            folder: Vec::new(alloc),
            secret: Vec::new(alloc),
            random: Vec::new(alloc),
            report: Vec::new(alloc),
        }
    }

    // Whether no call fails.
    fn is_empty(&self) -> bool {
        self.folder.is_empty()
            && self.secret.is_empty()
            && self.random.is_empty()
            && self.report.is_empty()
    }
}

// Puts a line, with its LF, after others.
fn push_line(lines: &mut Vec<u8>, line: &str) -> Result<(), AllocError> {
    lines.extend_from_slice(line.as_bytes())?;
    lines.push(b'\n')?;
    Ok(())
}

impl<'a> Row<'a> {
    /// A run that has a name alone.
    pub(crate) fn new(alloc: Global, name: &'a str) -> Row<'a> {
        Row {
            name,
            folder: "-",
            words: "",
            secret: Vec::new(alloc),
            left: 0,
            failing: Failing::new(alloc),
            crews: Vec::new(alloc),
            status: 0,
            report: Vec::new(alloc),
            holds: None,
            changed: false,
            each_call: false,
            calls: None,
        }
    }

    /// Whether no call of an object is to fail.
    pub(crate) fn is_sound(&self) -> bool {
        let mut sound = self.failing.is_empty();
        for crew in &self.crews {
            sound &= crew.failing.is_empty();
            for client in &crew.clients {
                sound &= client.failing_reads.is_empty() && client.failing_writes.is_empty();
            }
        }
        sound
    }

    // The worker whose lines are read.
    fn crew(&mut self) -> Result<&mut Crew, RowErr> {
        self.crews.last_mut().ok_or(RowErr::Line)
    }

    // The client whose lines are read.
    fn client(&mut self) -> Result<&mut Client, RowErr> {
        self.crew()?.clients.last_mut().ok_or(RowErr::Line)
    }

    // A line of a call that fails: of which object, and its number from 0.
    fn read_failing(&mut self, value: &str) -> Result<(), RowErr> {
        let (object, call) = value.split_once(' ').ok_or(RowErr::Line)?;
        let call = number(call)?;
        match object {
            "folder" => self.failing.folder.push(call)?,
            "secret" => self.failing.secret.push(call)?,
            "random" => self.failing.random.push(call)?,
            "report" => self.failing.report.push(call)?,
            "listener" => self.crew()?.failing.push(call)?,
            "read" => self.client()?.failing_reads.push(call)?,
            "write" => self.client()?.failing_writes.push(call)?,
            _ => return Err(RowErr::Line),
        }
        Ok(())
    }

    // A line of a run, by its first word.
    fn read_line(&mut self, alloc: Global, key: &str, value: &'a str) -> Result<(), RowErr> {
        match key {
            "folder" => self.folder = value,
            "words" => self.words = value,
            "secret" => push_line(&mut self.secret, value)?,
            "secret-bytes" => push_bytes(alloc, &mut self.secret, value)?,
            "left" => self.left = number(value)?,
            "fails" => self.read_failing(value)?,
            "worker" => self.crews.push(Crew::new(alloc))?,
            "link" => self.crew()?.clients.push(Client::new(alloc))?,
            ">" => push_bytes(alloc, &mut self.client()?.sends, value)?,
            "<" => push_bytes(alloc, &mut self.client()?.is_sent, value)?,
            "status" => self.status = number(value)?,
            "report" => push_line(&mut self.report, value)?,
            "report-part" => self.report.extend_from_slice(value.as_bytes())?,
            "holds" => self.holds = Some(value),
            "changed" => self.changed = true,
            "each-call" => self.each_call = true,
            "calls" => self.calls = Some(number(value)?),
            _ => return Err(RowErr::Line),
        }
        Ok(())
    }
}

/// The runs of a table.
pub(crate) fn read_rows(alloc: Global, table: &str) -> Result<Vec<Row<'_>>, RowErr> {
    let mut rows: Vec<Row<'_>> = Vec::new(alloc);
    for line in table.lines() {
        if line.is_empty() || line.starts_with('#') {
            continue;
        }
        let (key, value) = line.split_once(' ').unwrap_or((line, ""));
        if key == "run" {
            rows.push(Row::new(alloc, value))?;
        } else {
            let row = rows.last_mut().ok_or(RowErr::Line)?;
            row.read_line(alloc, key, value)?;
        }
    }
    Ok(rows)
}
