//! How a session ended.

/// How a session ended.
#[derive(Clone, Copy, Debug, PartialEq, Eq)]
pub enum SessionEnd {
    /// The last reply closes the connection, or the input ended after a whole request or had none.
    Done,
    /// A read failed where no whole request was left.
    ReadFault,
    /// A write or a flush failed.
    WriteFault,
    /// As many bytes as the limit allows were read, and none of them is a whole request that has no
    /// reply.
    Budget,
    /// Memory could not be had: for the buffer, or for a reply, of which a front may be written.
    OutOfMemory,
}
