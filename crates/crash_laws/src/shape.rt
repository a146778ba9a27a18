//! When the rows of a disk have the shape of given rows.

/// Says which rows a disk shows. It is read by contracts alone.
pub trait ShowsRows {
    ghost use Rattle.outside.specs.Disk.{Disk};
    ghost use Rattle.tree_model.specs.Rows.{Rows};

    ghost shows: { Self → Disk → Rows → Type 0 };
}
