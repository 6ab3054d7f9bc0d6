//! A file for each part: the choice among entries, by fragments and by words; the two caches; a watcher.

mod by_words;
mod choices;
mod packets;
mod stops;
mod turns;
mod watching;
