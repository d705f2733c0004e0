/// Where a root starts.
#[derive(Clone, Copy, Debug)]
pub struct RootStart {
    /// The number of its template.
    pub template: u32,
    /// The number of the pair in the chart: of that template, entered in text.
    pub pair: u32,
}
