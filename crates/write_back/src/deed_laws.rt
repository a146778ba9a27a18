ghost use Rattle.write_back.specs.Deeds.{DeedsRewrite, WaitingRewrites};
ghost use Rattle.write_back.specs.Sealed.{CutAgain};

/// The one deed does the change. On a disk on which the file has bytes that can be so rewritten it can be done, and again
/// after a stop, and leaves the file with the rewritten bytes and all else as it was. It does nothing.
pub fn deeds_rewrite()
    ensures { DeedsRewrite }
{}

/// A change of a file that would be there, after what waits on a disk: it can wait too, and rewrites the file over what the disk
/// would have been, and leaves all else. It does nothing.
pub fn waiting_rewrites()
    ensures { WaitingRewrites }
{}

/// The chunks of a change that can be made, one after the other and none of them empty, are cut at their borders: so they
/// are sealed chunks that make the same change. It does nothing.
pub fn chunks_are_cut()
    ensures { CutAgain }
{}
