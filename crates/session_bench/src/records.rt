// Records of changes of sessions, where there is one shard, as bytes.
use std::alloc::{AllocError, Global};

// The record of one change of a kind, of a client whose length fits its field.
fn record_of(alloc: Global, kind: u8, client: &str) -> Result<Vec<u8>, AllocError> {
    let Ok(length) = u16::try_from(client.len()) else {
        return Err(AllocError);
    };
    let mut bytes = Vec::new(alloc);
    bytes.extend_from_slice(&[0, 1, kind])?;
    bytes.extend_from_slice(&length.to_be_bytes())?;
    bytes.extend_from_slice(client.as_bytes())?;
    Ok(bytes)
}

/// A session begins with this number.
pub(crate) fn began(alloc: Global, client: &str, number: u64) -> Result<Vec<u8>, AllocError> {
    let mut bytes = record_of(alloc, 1, client)?;
    bytes.extend_from_slice(&number.to_be_bytes())?;
    bytes.extend_from_slice(&[0, 0, 14, 16, 2, 0])?;
    Ok(bytes)
}

// A sweep of the first generation, at this position.
fn put_sweep(position: u64, bytes: &mut Vec<u8>) -> Result<(), AllocError> {
    bytes.extend_from_slice(&[0; 8])?;
    bytes.extend_from_slice(&[0; 8])?;
    bytes.extend_from_slice(&position.to_be_bytes())?;
    bytes.extend_from_slice(&[0; 4])?;
    bytes.extend_from_slice(&position.to_be_bytes())?;
    Ok(())
}

/// Its first subscription, to `a/b`.
pub(crate) fn subscribed(alloc: Global, client: &str) -> Result<Vec<u8>, AllocError> {
    let mut bytes = record_of(alloc, 5, client)?;
    bytes.extend_from_slice(&[0, 0, 0, 1, 0, 0, 0, 1, 1, 0, 0, 0, 0])?;
    bytes.extend_from_slice(&[0, 3, 97, 47, 98])?;
    put_sweep(0, &mut bytes)?;
    Ok(bytes)
}

/// A batch of so many deliveries of QoS 1, of which the first has this number.
pub(crate) fn issued(
    alloc: Global,
    client: &str,
    first: u64,
    count: u16,
) -> Result<Vec<u8>, AllocError> {
    let behind = first.saturating_add(u64::from(count));
    let mut bytes = record_of(alloc, 8, client)?;
    bytes.extend_from_slice(&[0, 0, 0, 1, 0, 0, 0, 1, 0])?;
    bytes.extend_from_slice(&[0; 12])?;
    bytes.extend_from_slice(&first.to_be_bytes())?;
    bytes.extend_from_slice(&behind.to_be_bytes())?;
    bytes.extend_from_slice(&[255; 4])?;
    bytes.extend_from_slice(&first.to_be_bytes())?;
    bytes.extend_from_slice(&count.to_be_bytes())?;
    bytes.extend_from_slice(&[0, 0, 0, 0, 0, 0, 0, 1, 0, 0])?;
    put_sweep(behind, &mut bytes)?;
    Ok(bytes)
}

/// PUBACK came for this number.
pub(crate) fn acked(alloc: Global, client: &str, number: u64) -> Result<Vec<u8>, AllocError> {
    let mut bytes = record_of(alloc, 9, client)?;
    bytes.extend_from_slice(&number.to_be_bytes())?;
    Ok(bytes)
}
