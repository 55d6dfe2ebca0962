// Paths of a folder and of what is below it.
use std::alloc::{AllocError, Global};

// A path below a folder.
pub fn joined(alloc: Global, folder: &str, name: &str) -> Result<String, AllocError> {
    if folder.is_empty() {
        return String::from_str(alloc, name);
    }
    if name.is_empty() {
        return String::from_str(alloc, folder);
    }
    format!(in alloc; "{folder}/{name}")
}

// The same for a fault's text: an empty one where there is no memory for it.
pub fn shown(alloc: Global, folder: &str, name: &str) -> String {
    match joined(alloc, folder, name) {
        Ok(path) => path,
        Err(_) => String::new(alloc),
    }
}

// The folder that a path is in.
pub fn folder_of(path: &str) -> &str {
    match path.rsplit_once('/') {
        Some((folder, _)) => named(folder, "/"),
        None => ".",
    }
}

// A folder's path without slashes at its end.
pub fn trimmed(folder: &str) -> &str {
    if folder.is_empty() {
        return ".";
    }
    named(folder.trim_end_matches('/'), "/")
}

// The text, or what stands in place of an empty one.
fn named<'a>(text: &'a str, empty: &'a str) -> &'a str {
    if text.is_empty() { empty } else { text }
}
