//! A file for each part: pcapng files, and what the meter makes of them; pairs, and runs that pair; runs that watch.

mod metered;
mod pairing;
mod pairs;
mod pcapng;
mod watch;
