// The input received, and the printing of what is to be printed for it.
pub mod print;
pub mod receive;
