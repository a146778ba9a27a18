/// The host: its runtime, and who tells of it on standard error.
#[derive_where(Clone, Copy)]
pub struct Host<'a, R, L> {
    pub rt: &'a R,
    pub log: &'a L,
}
