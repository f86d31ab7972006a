// Windows: chips that are lent, the parts in which a frame's pieces stand, and the codes that are read from them.
#![tactic(auto)]

pub mod chip;
pub mod sfd;
pub mod window;

pub use chip::first_bad_chip;
pub use sfd::{read_code, sfd_code};
pub use window::{Part, Window};
