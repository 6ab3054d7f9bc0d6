//! Messages, each way.

mod model;
mod reading;
mod writing;
