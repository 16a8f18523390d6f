//! What a guard says.

use lio_labels::Label;
use lio_values::FaultKind;

/// What a guard says.
#[derive(Drop)]
pub enum Verdict {
    /// The operation goes on, at this current label.
    Go(Label),
    /// It is refused for this.
    No(FaultKind),
}
