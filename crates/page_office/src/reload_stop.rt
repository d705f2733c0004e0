/// Why a reload published nothing.
#[derive(Debug, Drop)]
pub enum ReloadStop<W> {
    /// The files are refused, for another cause than memory.
    Refused(W),
    /// The folder failed, and has counted it.
    FolderFault,
    /// Out of memory.
    Memory,
}
