ghost use Rattle.std.specs.Prelude.{◌≡◌, ◌≤◌, ◌<◌, ◌^◌, ◌++◌, ◌∷◌, [], length, IsTrue};
ghost use Rattle.std.specs.List.{AllByRecursion};
ghost use Rattle.std.specs.Int.{to_be_bytes};
ghost use Rattle.vault_path.specs.Parts.{is_part};
ghost use Rattle.deeds.specs.Plain.{plain, plains, plain_ranges};
ghost use Rattle.deeds.specs.Deeds.{Reshapes};
ghost use Rattle.deeds.specs.Writing.{Passes};
ghost use Rattle.deeds.specs.Grammar.{IsBatch, IsDeed, IsReshape, FitsRange, spelled, spelled_all, spelled_part, spelled_path, spelled_bytes, spelled_range, spelled_deed};

use crate::deed::Deed;
use crate::window::Window;
use crate::writes::Range;
use vault_path::VaultPath;

fn pass_part(window: &mut Window, out: &mut [u8], part: &[u8])
    requires fits { window.old.used ≤ length out.old }
    requires good { IsTrue (is_part part.now) }
    ensures passes { Passes (spelled_part part.now) window.old window.new out.old out.new }
    ensures within { window.new.used ≤ length out.new }
{
    window.pass(out, &[part.len() as u8]);
    window.pass(out, part);
}

fn pass_path(window: &mut Window, out: &mut [u8], path: &VaultPath)
    requires fits { window.old.used ≤ length out.old }
    ensures passes { Passes (spelled_path path.now) window.old window.new out.old out.new }
    ensures within { window.new.used ≤ length out.new }
{
    window.pass(out, &[path.len() as u8]);
    for index in 0..path.len() {
        pass_part(window, out, path.part(index));
    }
}

fn pass_bytes(window: &mut Window, out: &mut [u8], bytes: &[u8])
    requires fits { window.old.used ≤ length out.old }
    requires short { length bytes.now < 2 ^ 32 }
    ensures passes { Passes (spelled_bytes bytes.now) window.old window.new out.old out.new }
    ensures within { window.new.used ≤ length out.new }
{
    window.pass(out, &(bytes.len() as u32).to_be_bytes());
    window.pass(out, bytes);
}

fn pass_range(window: &mut Window, out: &mut [u8], range: &Range)
    requires fits { window.old.used ≤ length out.old }
    requires short { FitsRange (range.now.at, range.now.bytes.items) }
    ensures passes { Passes (spelled_range (range.now.at, range.now.bytes.items)) window.old window.new out.old out.new }
    ensures within { window.new.used ≤ length out.new }
{
    window.pass(out, &range.at.to_be_bytes());
    pass_bytes(window, out, &range.bytes);
}

fn pass_ranges(window: &mut Window, out: &mut [u8], ranges: &[Range])
    requires fits { window.old.used ≤ length out.old }
    requires each { AllByRecursion FitsRange (plain_ranges ranges.now) }
    ensures passes { Passes (spelled_all spelled_range (plain_ranges ranges.now)) window.old window.new out.old out.new }
    ensures within { window.new.used ≤ length out.new }
{
    for range in ranges {
        pass_range(window, out, range);
    }
}

// Passes a kind and one path.
fn pass_named(window: &mut Window, out: &mut [u8], kind: u8, path: &VaultPath)
    requires fits { window.old.used ≤ length out.old }
    ensures passes { Passes (kind ∷ spelled_path path.now) window.old window.new out.old out.new }
    ensures within { window.new.used ≤ length out.new }
{
    window.pass(out, &[kind]);
    pass_path(window, out, path);
}

fn pass_put(window: &mut Window, out: &mut [u8], path: &VaultPath, bytes: &[u8])
    requires fits { window.old.used ≤ length out.old }
    requires short { length bytes.now < 2 ^ 32 }
    ensures passes { Passes (2 ∷ (spelled_path path.now ++ spelled_bytes bytes.now)) window.old window.new out.old out.new }
    ensures within { window.new.used ≤ length out.new }
{
    pass_named(window, out, 2, path);
    pass_bytes(window, out, bytes);
}

fn pass_rename(window: &mut Window, out: &mut [u8], from: &VaultPath, to: &VaultPath)
    requires fits { window.old.used ≤ length out.old }
    ensures passes { Passes (3 ∷ (spelled_path from.now ++ spelled_path to.now)) window.old window.new out.old out.new }
    ensures within { window.new.used ≤ length out.new }
{
    pass_named(window, out, 3, from);
    pass_path(window, out, to);
}

fn pass_reshape(window: &mut Window, out: &mut [u8], path: &VaultPath, len: u64, ranges: &[Range])
    requires fits { window.old.used ≤ length out.old }
    requires good { IsReshape path.now len (plain_ranges ranges.now) }
    ensures passes { Passes (spelled_deed (Reshapes path.now len (plain_ranges ranges.now))) window.old window.new out.old out.new }
    ensures within { window.new.used ≤ length out.new }
{
    pass_named(window, out, 6, path);
    window.pass(out, &len.to_be_bytes());
    window.pass(out, &(ranges.len() as u32).to_be_bytes());
    pass_ranges(window, out, ranges);
}

fn pass_deed(window: &mut Window, out: &mut [u8], deed: &Deed)
    requires fits { window.old.used ≤ length out.old }
    requires good { IsDeed (plain deed.now) }
    ensures passes { Passes (spelled_deed (plain deed.now)) window.old window.new out.old out.new }
    ensures within { window.new.used ≤ length out.new }
{
    match deed {
        Deed::MakeDir(path) => pass_named(window, out, 1, path),
        Deed::Put(path, bytes) => pass_put(window, out, path, bytes),
        Deed::Rename(from, to) => pass_rename(window, out, from, to),
        Deed::Remove(path) => pass_named(window, out, 4, path),
        Deed::RemoveDir(path) => pass_named(window, out, 5, path),
        Deed::Reshape(path, len, ranges) => pass_reshape(window, out, path, *len, ranges),
    }
}

/// Passes the count of the deeds, and each.
pub fn pass_deeds(window: &mut Window, out: &mut [u8], deeds: &[Deed])
    requires fits { window.old.used ≤ length out.old }
    requires batch { IsBatch (plains deeds.now) }
    ensures passes { Passes (spelled (plains deeds.now)) window.old window.new out.old out.new }
    ensures within { window.new.used ≤ length out.new }
{
    window.pass(out, &(deeds.len() as u32).to_be_bytes());
    for deed in deeds {
        pass_deed(window, out, deed);
    }
}

/// How many bytes spell a batch.
pub fn spelled_len(deeds: &[Deed]) -> usize
    requires { IsBatch (plains deeds.now) }
    ensures { result ≡ length (spelled (plains deeds.now)) }
{
    // a window that begins after all of them passes them by
    let mut window = Window {
        skip: usize::MAX,
        used: 0,
    };
    pass_deeds(&mut window, &mut [], deeds);
    usize::MAX - window.skip
}
