//! The same schedules by the calls of two layers, and schedules of two roots.

mod free;
mod pairs;
mod passes;
mod roots;
mod seats;
mod words;
