// The totals of a report.

/// The number of device calls of a run, and the number of crash states that were opened.
#[derive(Clone, Copy, Debug, PartialEq, Eq)]
pub struct Printed {
    pub calls: u64,
    pub states: u64,
}
