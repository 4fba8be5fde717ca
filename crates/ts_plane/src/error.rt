//! Why sections are no plane.

/// The first of eight sections at fault, counted from 0.
#[derive(Clone, Copy, PartialEq, Eq, Debug, Drop)]
pub enum OpenError {
    /// This section is the first that does not keep its rule.
    Fault(u8),
    /// It is this section, or section 5: which of them, only a mark for each object tells, and marks take
    /// memory (`PlaneView::fault_by_marks`).
    Unmarked(u8),
}
