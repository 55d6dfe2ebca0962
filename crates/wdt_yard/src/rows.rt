//! The rows of the table, by what they are of: each file has what an end does at one of them.
mod blocks;
mod chunks;
mod connecting;
mod done;
mod err_marks;
mod failing;
mod greeting;
