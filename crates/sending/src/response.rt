// Reading the response that is to be written as a datagram: the message form, and names that have a counterpart.
ghost use Rattle.std.specs.Prelude.{◌≡◌, ◌+◌, ◌≤◌, IfOk, length};
ghost use Rattle.message.specs.Form.{head_size, most_bindings};
ghost use Rattle.sending.specs.Writing.{name_written, response_in, response_at, responses_from, response_head, answered};

use message::form::{HEAD_SIZE, KIND_AT, KIND_FIELD_AT, MOST_BINDINGS, Refusal, Role, checked_at};
use message::kinds::RESPONSE;
use message::refusals::Reason;
use message::request::{Binding, Bound, Head, content_in, id_of, seventeenth_at};
use octets::numbers::be4;

// Whether the name whose octets start at an offset has a counterpart.
#[tactic(auto, unfolding(crate::specs::Writing::name_written))]
pub fn name_written(s: &[u8], at: usize) -> bool
    requires { at + 8 ≤ length s.now }
    ensures { result ≡ name_written s.now at }
{
    let first = be4(s, at);
    let second = be4(s, at + 4);
    first == 2 || first < 2 && second < 40
}

#[tactic(auto, using(crate::proofs::ResponseLaws::name_found, message::proofs::FormLaws::found_within), unfolding(crate::specs::Writing::response_in))]
pub fn response_in(s: &[u8], at: usize, end: usize) -> Result<Bound, Refusal>
    requires { end ≤ length s.now }
    ensures { result ≡ response_in s.now at end }
{
    let name = checked_at(Role::Name, s, at, end)?;
    if !name_written(s, name.start) {
        return Err(Refusal {
            reason: Reason::NoCounterpart,
            at: 0,
        });
    }
    content_in(RESPONSE, s, end, name.start, name.len)
}

#[tactic(auto, using(message::proofs::FormLaws::found_within), unfolding(crate::specs::Writing::response_at))]
pub fn response_at(s: &[u8], at: usize) -> Result<Bound, Refusal>
    ensures { result ≡ response_at s.now at }
{
    let field = checked_at(Role::Bind, s, at, s.len())?;
    response_in(s, field.start, field.start + field.len)
}

#[tactic(auto, using(message::proofs::FormLaws::kind_fits), unfolding(crate::specs::Writing::response_head))]
pub fn response_head(s: &[u8]) -> Result<Head, Refusal>
    ensures { result ≡ response_head s.now }
{
    checked_at(Role::Kind, s, KIND_FIELD_AT, s.len())?;
    if s[KIND_AT] != RESPONSE {
        return Err(Refusal {
            reason: Reason::HeadWrong,
            at: KIND_FIELD_AT,
        });
    }
    id_of(s, RESPONSE)
}

// Reads the bindings behind the head into the array, and gives their number.
pub(crate) fn read_answers(
    s: &[u8],
    bindings: &mut [Binding; MOST_BINDINGS],
) -> Result<usize, Refusal>
    ensures { (answered result bindings.new ≡ responses_from s.now most_bindings head_size) × IfOk result (λ n. n ≤ most_bindings) }
{
    let mut n: usize = 0;
    let mut at: usize = HEAD_SIZE;
    // No counted loop: the place goes on, and a 17th binding is a refusal of its own.
    while at < s.len() {
        if n == MOST_BINDINGS {
            return Err(seventeenth_at(s, at));
        }
        let read = response_at(s, at)?;
        bindings[n] = read.binding;
        n += 1;
        at = read.next;
    }
    Ok(n)
}
