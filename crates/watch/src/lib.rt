// All public calls over store, image and desk; the dealer, which takes no buffer; and two that take none
// of the three: laps against the mat, and which copies to keep. Any bytes may be lent and any numbers
// handed in, and no call asks anything of its caller. A refused call changes nothing, save that 16 writes
// the desk.
#![tactic(auto)]

// What calls take and answer.
pub use answers::{Answer, Refusal};
pub use checkpoint::Status;
pub use entries::Kind;
pub use sound::Form;

// Lay out a store or a desk; check a store or a finished image.
pub use checker::check;
pub use format::{lay_out_desk, lay_out_store};

// Look up and read, which take the store alone.
pub use files::plain::{look_up, read};

// Start a copy, step, take up to 64 steps, and ask its state.
pub use bursts::burst;
pub use copier::{start, step};
pub use guards::state;

// Deal the steps of a turn among the bays of a charging case, which takes no buffer.
pub use dealer::{Turn, deal};

// Hold laps against the mat, which takes no store.
pub use laps::match_laps;

// Say which copies to keep, which takes no store.
pub use keeping::keep;

// The other file calls.
pub use live::{create, link, rename, rename_new, shorten, unlink, write};
