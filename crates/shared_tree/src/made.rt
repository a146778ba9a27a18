use std::marker::Model;

/// What is made of a request in a turn. No value of it is made.
pub struct Made {
    none: [u8; 0],
}

impl Model for Made {
    ghost use Rattle.tree_model.specs.History as histories;
    ghost use Rattle.shared_tree.specs.Turns.{blank};

    ghost Value = { histories.Made };

    ghost view = { λ _. blank };
}
