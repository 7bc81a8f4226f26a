// Formats of printf as pieces, and the objects within an aggregate in the order in which an initialiser fills them, with what
// each item writes.
#![tactic(auto)]

pub use filling::{Destination, Filling, Landing, has_literal, land};
pub use formats::{format_pieces, kinds_of_arguments};
pub use items::fill_item;
pub use lists::{
    Content, Enclosing, Opening, check_scalar_list, close_list, finish_content, is_value_for,
    open_list, refuse_value,
};
pub use printing::{add_printed, literal_in, read_format};
pub use slots::{FillSlot, ItemKind, Unfilled, descend, is_text_array, next_slot, parts_of};

mod filling;
mod formats;
mod items;
mod lists;
mod printing;
mod slots;
