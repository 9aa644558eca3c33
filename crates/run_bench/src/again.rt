//! An image that is read, and written again.

use image_read::{image, read_image};
use serde_json::Value;
use std::io::Read;

/// Reads an image from the standard input, and writes it again: whether that is the same, byte by byte, but for the newline behind it.
pub(crate) fn is_same(rt: &HostRuntime) -> anyhow::Result<bool> {
    let mut bytes = Vec::new(rt.alloc());
    rt.reader().read_to_end(&mut bytes)?;
    let value = Value::from_slice(rt.alloc(), bytes.as_slice())?;
    let Ok(saved) = read_image(rt.alloc(), &value) else {
        return Ok(false);
    };
    if saved.state.len() != saved.scenario.guests.len() {
        return Ok(false);
    }
    let mut written = image(rt.alloc(), &saved)?;
    written.push(b'\n')?;
    Ok(written.as_slice() == bytes.as_slice())
}
