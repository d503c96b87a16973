//! The items of a DTD text.
//!
//! A module, the text of a parameter entity between declarations and the contents of a conditional section are lists of
//! items: white space, comments, processing instructions, references to parameter entities, the starts of conditional
//! sections, and declarations of elements, attribute lists, entities and notations. `next_item` takes a text and a place
//! in it, and tells the kind of the item there and where it ends; `next_item_within` does so for a part. Nothing is copied, and no memory is taken.
//!
//! `specs/Items.antt` says what a text must be to be an item of a kind, and what the item at a place is: the contract of
//! `next_item` is `Scans`. `specs/Scanning.antt` computes it. The laws at the end say that the two agree, and that the
//! item at a place is unique. `specs/ItemLists.antt` says what it is for a text to be a list of items, and
//! `specs/Walk.antt` goes over a text piece by piece with a state, for all readers above.
//!
//! References stand also in values, where `char_reference`, `reference_len` and `begins_reference` read them
//! (`specs/References.antt`); `quote_after` follows the quotes of a text.
#![tactic(auto)]

mod forms;
mod item;
mod laws;
mod references;
mod scan;

pub use item::{Item, ItemKind, ScanFault};
pub use laws::{answer_law, item_law, items_law, list_law, scanning_law};
pub use references::{
    begins_reference, char_reference, is_quote, name_len, quote_after, reference_len,
};
pub use scan::{next_item, next_item_within};
