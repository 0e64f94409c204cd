// What is asked of a source that lies in memory.
ghost use Rattle.std.specs.Prelude.{◌≡◌, IfOk};
ghost use Rattle.match_top.specs.Answers.{Answers, taken};
ghost use Rattle.match_top.specs.Asked.{request_view};
ghost use Rattle.match_top.specs.Statuses.{IsVerdict};

use crate::answering::{Answer, answer_to};
use crate::reading::LONGEST_SOURCE;
use crate::words::Request;
use no_memory::NoMemory;
use std::alloc::Global;

/// The text and the status that a request has for these bytes: what `run` writes of a file with them, and how it ends.
///
/// The bytes are copied, and nothing is kept between calls. Any bytes may be given.
pub fn report(alloc: Global, request: &Request<'_>, source: &[u8]) -> Result<Answer, NoMemory>
    ensures whole { IfOk result (λ a. Answers (request_view request.now) source.now a.text.items a.status) }
    ensures verdict { IfOk result (λ a. IsVerdict a.status) }
{
    let answer = answer_to(alloc, request, front_of(source).to_vec(alloc)?)?;
    Ok(answer)
}

// What is taken of the bytes: all, or one more than a source may have.
#[tactic(auto, unfolding(crate::specs::Answers::taken, crate::specs::Answers::longest_source))]
fn front_of(source: &[u8]) -> &[u8]
    ensures { result.now ≡ taken source.now }
{
    if source.len() > LONGEST_SOURCE {
        &source[..LONGEST_SOURCE + 1]
    } else {
        source
    }
}
