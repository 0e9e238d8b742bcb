// What the readers and the writers of all kinds share.
pub mod calls;
pub mod kinds;
pub mod size;
