/// How much of what may be the end of a comment has been read.
#[derive(Clone, Copy)]
pub enum CommentStage {
    /// `<!--`, which a `>` ends too.
    Started,
    /// `<!---`.
    StartedDash,
    /// A `-`.
    Dash,
    /// `--`, or more of them.
    DashDash,
    /// `--!`.
    Bang,
}
