//! The texts of values: those that a program shows, those that `inspect` gives, and what `puts`, `print` and `p` write.
#![tactic(auto)]

mod draft;
mod pieces;
mod show;
mod text;

pub use draft::{Draft, TextForm, Want};
pub use pieces::{Style, add_text, add_value};
pub use show::{Form, MAX_BYTES, RenderFault, render};
pub use text::{add_inspected, add_shown, class_text, name_text};
