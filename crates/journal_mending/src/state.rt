use deeds::Deed;

/// What a deed of an open batch is to its folder.
#[derive(Clone, Copy, Debug, PartialEq, Eq)]
pub enum State {
    /// It is done: doing it changes nothing.
    Done,
    /// It is to be done.
    Due,
    /// The folder doesn't fit it.
    Unfit,
    /// The file that it reshapes was saved anew by another program since: it has another header than the journal kept.
    Changed,
}

/// A deed, and what it is to its folder.
#[derive(Debug, Drop)]
pub struct DeedState {
    pub deed: Deed,
    pub state: State,
}
