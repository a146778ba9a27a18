/// What a power cut leaves of a step that isn't on the disk yet.
#[derive(Clone, Copy, Debug, PartialEq, Eq)]
pub enum Leaves {
    /// Nothing of it.
    Nothing,
    /// The first half of the bytes that it writes, or half of a cut; all of a name.
    Half,
    /// As many bytes as it writes, but each 0xA5; half of a cut; all of a name.
    Filled,
    /// All of it.
    All,
}

/// What is chosen of each step in turn. After the last choice comes the first again; with no choices all is left of each.
#[derive(Drop)]
pub struct Choices<'a> {
    leaves: &'a [Leaves],
    index: usize,
}

impl<'a> Choices<'a> {
    /// These choices, from the first on.
    pub fn new(leaves: &'a [Leaves]) -> Choices<'a> {
        Choices { leaves, index: 0 }
    }

    /// The next choice.
    pub fn next(&mut self) -> Leaves {
        if self.index >= self.leaves.len() {
            self.index = 0;
        }
        if self.leaves.is_empty() {
            return Leaves::All;
        }
        let leaves = self.leaves[self.index];
        self.index += 1;
        leaves
    }

    /// The next choice for a name.
    pub fn wants_name(&mut self) -> bool {
        !matches!(self.next(), Leaves::Nothing)
    }
}
