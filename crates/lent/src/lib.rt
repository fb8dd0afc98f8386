// Words that a caller lends: filling them, and the map of images. Each function takes whatever it is lent.
#![tactic(auto)]

pub mod map;
pub mod words;
