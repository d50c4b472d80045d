// What a sound store or finished image is.
#![tactic(auto)]

// Which of the two a check is told.
#[derive(Clone, Copy)]
pub enum Form {
    Store,
    Image,
}
