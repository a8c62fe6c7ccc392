//! What one step of the tokenizer finds.
use crate::kinds::Token;
use byte_lists::Bytes;

/// A token, and how many bytes spell it.
#[derive(Drop)]
pub(crate) struct Found {
    pub(crate) token: Token,
    pub(crate) size: usize,
}

/// The bytes of a text or a blob, and how many bytes are left behind its last quote.
#[derive(Drop)]
pub(crate) struct Copied {
    pub(crate) bytes: Bytes,
    pub(crate) left: usize,
}
