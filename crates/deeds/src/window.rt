ghost use Rattle.std.specs.Prelude.{◌≤◌, length};

/// A window of a text that is written from its beginning: how many bytes come before it, and how many of it are filled.
#[derive(Clone, Copy, Debug, PartialEq, Eq)]
pub struct Window {
    pub skip: usize,
    pub used: usize,
}

impl Window {
    ghost use Rattle.std.specs.Prelude.{◌≤◌, length};
    ghost use Rattle.deeds.specs.Writing.{Passes};

    /// Passes bytes: those that the window shows are copied to `out`.
    pub fn pass(&mut self, out: &mut [u8], bytes: &[u8])
        requires { self.old.used ≤ length out.old }
        ensures passes { Passes bytes.now self.old self.new out.old out.new }
        ensures within { self.new.used ≤ length out.new }
    {
        let skipped = self.skip.min(bytes.len());
        self.skip -= skipped;
        let n = (bytes.len() - skipped).min(out.len() - self.used);
        let end = self.used + n;
        out[self.used..end].copy_from_slice(&bytes[skipped..skipped + n]);
        self.used = end;
    }
}
