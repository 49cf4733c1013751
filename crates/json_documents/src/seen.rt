//! What is read of a document.

/// What is read of a value.
#[derive(Clone, Copy)]
pub struct Document {
    /// The offset after it.
    pub end: usize,
    /// Whether an object in it, at any depth, has two members of the same name.
    pub repeats: bool,
}
