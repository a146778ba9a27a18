ghost use Rattle.std.specs.Prelude.{◌≡◌, ⊤, IsErrOf};
ghost use Rattle.outside.specs.Calls.{HasCause, Rose, risen};

use outside::FolderErr;

/// Counts one changing call more.
pub(crate) fn count_change(changes: &mut u64)
    ensures { changes.new ≡ risen changes.old }
{
    *changes = changes.saturating_add(1);
}

/// Counts one fault more.
pub(crate) fn count_fault(faults: &mut u64)
    ensures { HasCause faults.old faults.new ⊤ }
{
    *faults = faults.saturating_add(1);
}

/// Passes a folder's answer on, and counts that it failed and that the call's condition fails.
pub(crate) fn counted_in_folder<T>(
    faults: &mut u64,
    answer: Result<T, FolderErr>,
) -> Result<T, FolderErr>
    ensures same { result ≡ answer }
    ensures cause { HasCause faults.old faults.new (IsErrOf result FolderErr.Failed) }
    ensures unfit { IsErrOf result FolderErr.Unfit → Rose faults.old faults.new }
{
    match &answer {
        Ok(_) | Err(FolderErr::Memory) => {}
        Err(FolderErr::Failed | FolderErr::Unfit) => *faults = faults.saturating_add(1),
    }
    answer
}
