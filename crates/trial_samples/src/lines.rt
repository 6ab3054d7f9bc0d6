//! Command lines.

use std::alloc::Global;
use std::test::Fail;

/// The words of a command line with single spaces between them; an empty line gives one empty word.
pub fn words_in(alloc: Global, line: &str) -> Result<Vec<String>, Fail> {
    let mut words = Vec::new(alloc);
    for word in line.split(' ') {
        words.push(String::from_str(alloc, word)?)?;
    }
    Ok(words)
}
