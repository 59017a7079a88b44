// One read of the keys from `from` up to and not including `to`, when `at` commits were done and the
// transaction had made `own` writes.
#[derive(Clone, Copy, Default, PartialEq, Eq, Debug)]
pub struct NotedRead {
    pub from: u32,
    pub to: u32,
    pub at: u32,
    pub own: u32,
}
