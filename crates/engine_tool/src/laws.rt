//! The law of the replies. The call does nothing: its contract is the law.

ghost use Rattle.engine_tool.specs.Replies.{OneReply};

/// A command has one reply at most.
pub fn one_reply()
    ensures { OneReply }
{}
