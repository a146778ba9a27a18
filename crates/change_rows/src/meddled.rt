// Runs of a script while another program changes the folder.

use crate::beside::Beside;
use crate::error::RunErr;
use crate::table::Script;
use crate::vault::{ROOM, SECOND, open, seeded, tree_in};
use crate::words::words;
use vault_store::Store;

/// Runs a script whose folder another program changes before some of its requests. Each reply is the wanted one, closing is well if it is
/// to be, and then the folder holds the tree.
pub(crate) fn check_meddled(script: &Script<'_>) -> Result<(), RunErr> {
    let alloc = script.alloc;
    let mut begins = Vec::new(alloc);
    for step in &script.meddled_steps()? {
        let vault = run(script, &begins, *step)?;
        begins.push(vault.into_folder().into_folder().call_count())?;
    }
    let (folder, closed) = run(script, &begins, script.steps.len())?.close();
    if closed.committed().is_ok() != script.is_closed_well {
        return Err(RunErr::Wrong(format!(in alloc;
            "closing is {}well",
            if script.is_closed_well { "not " } else { "" }
        )?));
    }
    let tree = tree_in(alloc, folder.into_folder())?;
    script.check_tree(0, 0, tree.as_str())
}

// Runs the first requests, while another program changes the folder, if the calls of the requests that it does so in begin with these.
fn run(script: &Script<'_>, begins: &[u64], count: usize) -> Result<Store<Beside>, RunErr> {
    let alloc = script.alloc;
    let folder = Beside::new(script.folder()?, script.meddlings(begins)?);
    let mut vault = match open(alloc, folder) {
        Ok(vault) => vault,
        Err(refused) => return Err(RunErr::Open(refused.cause)),
    };
    let mut entropy = seeded(alloc);
    for (number, step) in script.steps.iter().take(count).enumerate() {
        let mut buffer = [0; ROOM];
        let request = step.request()?;
        let reply = vault.serve(&request, SECOND, &mut entropy, &mut buffer);
        let found = words(alloc, &reply, &buffer)?;
        if found.as_str() != step.reply {
            return Err(RunErr::Wrong(format!(in alloc;
                "request {number} is answered \"{found}\", not \"{}\"",
                step.reply
            )?));
        }
    }
    Ok(vault)
}
