//! Replies as they are wanted.

/// Whether what was said is what is wanted, line by line.
pub fn agree(wanted: &str, said: &str) -> bool {
    wanted.split('\n').count() == said.split('\n').count()
        && wanted
            .split('\n')
            .zip(said.split('\n'))
            .all(|(wanted, said)| agrees(wanted, said))
}

fn agrees(wanted: &str, said: &str) -> bool {
    if let Some(end) = wanted.strip_prefix("..") {
        return said.ends_with(end);
    }
    if let Some(length) = wanted.strip_prefix('#') {
        return length.parse::<usize>() == Ok(said.len());
    }
    wanted == said
}
