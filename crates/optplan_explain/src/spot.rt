//! Spots of texts.

/// The position of a fault in a text.
#[derive(Clone, Copy, Debug, PartialEq, Eq)]
pub enum Spot {
    /// At this byte offset.
    Byte(usize),
    /// At the end of the text.
    End,
    /// In this line, counted from 1.
    Line(usize),
    /// In the line at the end of the text: the one after the last line feed.
    LastLine,
}
