//! The bodies of the calls of `PayloadFamily` for the data of one family.
//!
//! That data is written `list(VARIANT, ATTRIBUTE, CONTEXT)`, if it is a list of attributes of this
//! type, parsed with this context, `first(VARIANT, ATTRIBUTE, CONTEXT)`, if it is the first
//! attribute alone, or `bytes(VARIANT)`.

/// Parses a payload.
macro_rules! read {
    (list($variant:path, $nla:ty, $ctx:expr) ($alloc:ident, $payload:expr, $count:expr)) => {
        Ok($variant(crate::reading::read_nlas($alloc, $payload, $ctx, $count)?))
    };
    (first($variant:path, $nla:ty, $ctx:expr) ($alloc:ident, $payload:expr, $count:expr)) => {
        Ok($variant(linkinfo_table::first_read($alloc, $payload, $ctx, $count)?))
    };
    (bytes($variant:path) ($alloc:ident, $payload:expr, $count:expr)) => {
        Ok($variant(nla_frame::Bytes::copy_of($alloc, $payload)?))
    };
}

/// Makes a call that returns no parsed value.
macro_rules! ask {
    (list($variant:path, $nla:ty, $ctx:expr) ($question:ident, $count:ident, $buffer:ident)) => {
        $question.of_list::<$nla>($ctx, $count, $buffer)
    };
    (first($variant:path, $nla:ty, $ctx:expr) ($question:ident, $count:ident, $buffer:ident)) => {
        $question.of_first::<$nla>($ctx, $count, $buffer)
    };
    (bytes($variant:path) ($question:ident, $count:ident, $buffer:ident)) => {
        $question.of_bytes($count, $buffer)
    };
}

pub(crate) use ask;
pub(crate) use read;
