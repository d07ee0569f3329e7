//! How a block of operators is left.

/// Where a script goes on after a block. Blocks are counted from 0.
#[derive(Clone, Copy, Debug, PartialEq, Eq)]
pub enum Leave {
    /// Always at this block.
    Jump(u32),
    /// As the last operator of the block decides, which gives a truth value.
    Branch {
        /// The block where it is true.
        on_true: u32,
        /// The block where it is false.
        on_false: u32,
    },
    /// Nowhere: the script ends after this block.
    End,
}
