//! Certificates as bytes.

/// The text of a certificate; or that it has more than 67,108,864 bytes.
#[derive(Drop)]
pub enum Written {
    Text(Vec<u8>),
    TooLong,
}
