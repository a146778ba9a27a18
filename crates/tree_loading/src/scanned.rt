ghost use Rattle.std.specs.Prelude.{◌≡◌};

use crate::found::FoundNode;
use std::marker::Model;
use vault_names::Name;

/// What the folder of a directory shows: its nodes in the order of their names' bytes, and whether it has foreign entries.
#[derive(Drop)]
pub struct Scanned {
    nodes: Vec<(Name, FoundNode)>,
    foreign: bool,
}

impl Model for Scanned {
    ghost use Rattle.tree_loading.specs.Scanned.{ScannedFolder, all_found};

    ghost Value = { ScannedFolder };

    ghost view = { λ s. record { found = all_found s.nodes.items; foreign = s.foreign } };
}

impl Scanned {
    ghost use Rattle.tree_loading.specs.Scanned.{all_found};

    pub(crate) fn new(nodes: Vec<(Name, FoundNode)>, foreign: bool) -> Scanned
        ensures { result ≡ record { found = all_found nodes.items; foreign = foreign } }
    {
        Scanned { nodes, foreign }
    }

    /// Whether the folder has foreign entries.
    pub fn has_foreign(&self) -> bool
        ensures { result ≡ self.now.foreign }
    {
        self.foreign
    }

    /// The nodes by name, in the order of the names' bytes. It takes no memory.
    pub fn into_nodes(self) -> Vec<(Name, FoundNode)>
        ensures { all_found result.items ≡ self.found }
    {
        let Scanned { nodes, foreign: _ } = self;
        nodes
    }
}
