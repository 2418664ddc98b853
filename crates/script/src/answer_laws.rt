// Laws of the replies, each proved because a contract here names it.
ghost use Rattle.script.specs.ReplyLaws.{ReplyLength};

/// Every reply has sixteen bytes.
#[tactic(auto, unfolding(crate::specs::Replies::reply_bytes))]
pub fn reply_length()
    ensures { ReplyLength }
{}
