/// What stands behind the bytes that were read of a line.
#[derive(Clone, Copy)]
pub enum LineEnd {
    /// A line feed, which was read too.
    LineFeed,
    /// The end of the input.
    Input,
    /// More of the line than is read.
    TooLong,
}
