//! What a deed is to its folder, by what was looked at.

ghost use Rattle.std.specs.Prelude.{◌≡◌};
ghost use Rattle.journal_mending.specs.Looks.{due_if, done_if, make_dir_state, put_state, rename_state, remove_state, remove_dir_state, reshape_state};

use crate::state::State;
use outside::Kind;

// To be done if this is so.
fn due_if(fits: bool) -> State
    ensures { result ≡ due_if fits }
{
    if fits { State::Due } else { State::Unfit }
}

// Done if this is so, and else to be done.
fn done_if(same: bool) -> State
    ensures { result ≡ done_if same }
{
    if same { State::Done } else { State::Due }
}

/// Of a folder that is made, by what is there and whether the folder above is there or comes to be.
pub(crate) fn make_dir_state(here: Option<Kind>, inside: bool) -> State
    ensures { result ≡ make_dir_state here inside }
{
    match here {
        Some(Kind::Dir) => State::Done,
        Some(Kind::File(_)) => State::Unfit,
        None => due_if(inside),
    }
}

/// Of a file of so many bytes that is put, by what is there, whether that has its bytes, and whether the folder above is there or comes to be.
pub(crate) fn put_state(count: u64, here: Option<Kind>, same: bool, inside: bool) -> State
    ensures { result ≡ put_state count here same inside }
{
    match here {
        Some(Kind::Dir) => State::Unfit,
        Some(Kind::File(len)) => {
            if len <= count {
                done_if(same)
            } else {
                State::Unfit
            }
        }
        None => due_if(inside),
    }
}

/// Of a file that is moved, by what is where it was and where it goes, and whether the folder above the latter is there or comes to be. A file as long that is at
/// both names may be the same one.
pub(crate) fn rename_state(from: Option<Kind>, to: Option<Kind>, inside: bool) -> State
    ensures { result ≡ rename_state from to inside }
{
    match from {
        Some(Kind::Dir) => State::Unfit,
        Some(Kind::File(len)) => match to {
            Some(Kind::Dir) => State::Unfit,
            Some(Kind::File(other)) => due_if(len == other),
            None => due_if(inside),
        },
        None => match to {
            Some(_) => State::Done,
            None => State::Unfit,
        },
    }
}

/// Of a file that is removed, by what is there.
pub(crate) fn remove_state(here: Option<Kind>) -> State
    ensures { result ≡ remove_state here }
{
    match here {
        Some(Kind::Dir) => State::Unfit,
        Some(Kind::File(_)) => State::Due,
        None => State::Done,
    }
}

/// Of a folder that is removed, by what is there and whether it is empty or comes to be.
pub(crate) fn remove_dir_state(here: Option<Kind>, bare: bool) -> State
    ensures { result ≡ remove_dir_state here bare }
{
    match here {
        Some(Kind::Dir) => due_if(bare),
        Some(Kind::File(_)) => State::Unfit,
        None => State::Done,
    }
}

/// Of a file that is reshaped, by whether it can be, and whether it has that length and those bytes.
pub(crate) fn reshape_state(can: bool, same: bool) -> State
    ensures { result ≡ reshape_state can same }
{
    if can { done_if(same) } else { State::Unfit }
}
