//! Ordered maps for what is kept and may be taken back: a shelf counts its calls, and a kept map can be undone up to
//! where it was last settled.
#![tactic(auto)]

mod change;
mod kept;
mod kept_map;
mod laws;
mod logged;
mod shelf;
mod shelf_key;
mod walk;

pub use change::Change;
pub use kept::Kept;
pub use kept_map::{Entries, KeptMap};
pub use laws::{known_changes, known_clearings, known_contents, known_entries, known_touches};
pub use shelf::Shelf;
pub use shelf_key::ShelfKey;
pub use walk::{Stretch, keys_in};
