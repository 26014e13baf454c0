// What is written to standard output, and what is said on standard error.
use std::io::Error;

// Writes a line to standard error: what failed, as the caller names it, a colon and the system's words for why.
pub fn fail(rt: &HostRuntime, what: &[u8], error: Error) {
    let _ = rt.stderr().write_all(what);
    let _ = match error.to_string(rt.alloc()) {
        Ok(text) => eprintln!(rt; ": {}", words(text.as_str())),
        Err(_) => eprintln!(rt; ": {error}"),
    };
}

// A system's error without the number that std puts behind it.
fn words(text: &str) -> &str {
    match text.split_once(" (os error ") {
        Some((words, _)) => words,
        None => text,
    }
}

// Writes it all, or tells on standard error that it could not.
pub fn put(rt: &HostRuntime, out: &[u8]) {
    if let Err(e) = rt.write_all(out) {
        fail(rt, b"standard output", e);
    }
}
