// Stores of 256 cells: what a store stands for, and the makes that stand on other stores.
#![tactic(auto)]

pub mod alike;
pub mod cover;
pub mod known;
pub mod lent;
pub mod neighbours;
pub mod store;

pub use cells::cell::{Cell, KnownCell, Mark};
pub use cells::fault::StoreFault;
