/// Where an early short cut says yes for sure. Elsewhere it may say yes too.
#[derive(Clone, Copy, Debug, PartialEq, Eq)]
pub enum Sure {
    /// Nowhere.
    Never,
    /// Where one thread made the access and asks.
    SameThread,
    /// Where both are commits.
    BothCommits,
    /// Where some monitor is kept as owned at the access and at the question.
    SharedMonitor,
}
