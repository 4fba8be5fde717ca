// Saying a reply of one line.
ghost use Rattle.std.specs.Prelude.{◌≡◌, IfErr, true, false};
ghost use Rattle.ts_script.specs.Replies.{refusal_text, reply_text};
ghost use Rattle.ts_store.specs.Does.{Answers};

use crate::{Kind, Stop};
use ts_script::{Refusal, Reply, refusal_line, reply_line};
use ts_site::{Disk, Site};

/// Says a reply. It takes no memory.
pub(crate) fn reply<W: Site>(site: &mut W, reply: &Reply) -> Result<Kind, Stop>
    ensures answers { Answers (reply_text reply.now) false result (W.outside site.old) (W.outside site.new) }
    ensures why { IfErr result (λ stop. stop ≡ Stop.OutputFault) }
{
    match site.say(reply_line(reply).bytes()) {
        Ok(()) => Ok(Kind::Done),
        Err(_) => Err(Stop::OutputFault),
    }
}

/// Says a refusal. It takes no memory.
pub(crate) fn refuse<W: Site>(site: &mut W, refusal: &Refusal) -> Result<Kind, Stop>
    ensures answers { Answers (refusal_text refusal.now) true result (W.outside site.old) (W.outside site.new) }
    ensures why { IfErr result (λ stop. stop ≡ Stop.OutputFault) }
{
    match site.say(refusal_line(refusal).bytes()) {
        Ok(()) => Ok(Kind::Refused),
        Err(_) => Err(Stop::OutputFault),
    }
}
