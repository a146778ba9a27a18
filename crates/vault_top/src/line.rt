ghost use Rattle.std.specs.Prelude.{◌≡◌};
ghost use Rattle.vault_top.specs.Lines.{line_text};

/// A line of the report without its LF, in two pieces that are one after the other, so that it takes no memory to write it.
#[derive(Clone, Copy, Debug, PartialEq, Eq)]
pub struct Line<'a> {
    pub head: &'static str,
    /// A number, a member's name, or the bytes of an entry's name as the folder lists it.
    pub detail: &'a [u8],
}

/// A line without a detail.
pub(crate) fn whole<'a>(head: &'static str) -> Line<'a>
    ensures { line_text result ≡ head.now }
{
    Line { head, detail: b"" }
}
