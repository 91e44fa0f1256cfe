//! Lists in an arena, as a call that can fail returns them.

/// Items one after the other in the arena. A slice of references to nodes may not stand in a `Result` itself.
#[derive(Clone, Copy)]
pub struct List<'b, T: Copy> {
    /// What is listed, in its order.
    pub items: &'b [T],
}
