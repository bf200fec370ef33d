//! Where a file's bytes come from: a byte, a missing place or an unread place for each number from 0.

#![tactic(auto)]

mod bytes;
mod joined;
mod lack;
mod sectors;
mod store;

pub use bytes::Bytes;
pub use joined::Joined;
pub use lack::Lack;
pub use sectors::Sectors;
pub use store::Store;
