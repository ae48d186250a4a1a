// Which replies make a command fail.
ghost use Rattle.std.specs.Prelude.{◌≡◌};
ghost use Rattle.commands.specs.Replies.{reports_failure};

use machine::Reply;
use page_entry::Refusal;

/// Whether a reply is that the device failed.
pub fn is_failure(reply: &Reply) -> bool
    ensures { result ≡ reports_failure reply.now }
{
    matches!(reply, Reply::Refused(Refusal::Device))
}
