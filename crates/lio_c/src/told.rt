//! What a caller is told.

/// What a caller is told.
#[repr(C)]
#[derive(Drop)]
pub struct Told {
    /// How the call ended: the exit status of the program, or why no call was made, 20 to 24.
    pub status: u32,
    /// Where the bytes break, or the number of the netstring, where no call was made.
    pub place: usize,
    /// How many bytes the reply has.
    pub needed: usize,
}
