//! The plain file tree as plain, slow functions: contents of files, and the step.
//!
//! # Contents
//!
//! The contents of files as chunks that open or don't, byte by byte and slowly: what is read of them, and what writes and changes of
//! length make of them.
//!
//! ```
//! let content = Content::Chunks { opens: true, cells: Vec::new(alloc) };
//! let content = written(alloc, &content, 3, b"abc")?; // three zeros, and `abc`
//! ```
//!
//! # The step
//!
//! The step of the plain file tree as a plain, slow function: rows and a request in, rows and an answer out. Nothing of it is for use
//! in a server; it is there so that tables of outside values run through the definition.
//!
//! ```
//! let rows = Rows { nodes, next: 5, named_twice: false };
//! let stepped = step(alloc, rows, &Request::Look { node: 0 }, 1700000000)?;
//! ```
#![tactic(auto)]

mod answer;
mod content;
mod content_changing;
mod early;
mod ends;
mod listing;
mod names;
mod nodes;
mod rows;
mod stat_changing;
mod stats;
mod stepping;
mod walking;
mod writing;

pub use answer::{Answer, Reply, Stepped};
pub use content::{Cell, Content, content_length, copied, slice_of};
pub use content_changing::{resized, written};
pub use ends::StepErr;
pub use rows::{Kind, Row, Rows};
pub use stepping::step;
