/// That the kernel took a log, which derives its sequent: only `check` and `Checker::finish` make one, so
/// who holds one had that log checked. Of which log it is, `IsTaken` says.
#[derive(Drop, PartialEq, Eq)]
pub struct Accepted {
    /// How many steps the log has.
    pub(crate) steps: u64,
}
