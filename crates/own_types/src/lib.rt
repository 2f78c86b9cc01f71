//! Types of one's own in documents and on the wire.
#![tactic(auto)]

mod color;
mod folder;
mod label;
mod pin;
mod point;
mod span;

pub use color::Color;
pub use folder::Folder;
pub use label::Label;
pub use pin::Pin;
pub use point::Point;
pub use span::Span;
